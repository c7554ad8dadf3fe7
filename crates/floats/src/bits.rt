// Floats worked out from their bits: each conversion cuts the digits at a place and looks at what
// falls off.
ghost use Rattle.std.specs.Prelude.{◌≡◌, ◌-◌, ◌*◌, ◌^◌, ◌<◌, false, pos, unsigned_abs};
ghost use Rattle.std.specs.Float.Ieee as Ieee;
ghost use Rattle.std.specs.Float.{binary32, binary64};
ghost use Rattle.rounding.specs.Pattern.{field, digits};
ghost use Rattle.floats.specs.Floats.{whole_of, floor_of, half_even_of, to_format};
ghost use Rattle.cuts.specs.Rules.{rule_of};

use cuts::cut::{LEADING, Rule, SIGN, cut, digits_of, place_of, whole_size};

// 2^63, where an i64 ends.
const TWO_63: f64 = 9223372036854775808.0;

// x as a whole number.
fn whole(rule: Rule, x: f64) -> f64
    ensures { result ≡ whole_of (rule_of rule) x }
{
    if x != x {
        return x;
    }
    let b = f64::to_bits(x);
    // no digit stands below 1
    if b % SIGN / LEADING >= 1075 {
        return x;
    }
    if b < SIGN {
        return whole_size(rule, false, b) as f64;
    }
    -(whole_size(rule, true, b) as f64)
}

// The greatest whole number that is not above x.
pub fn floor_f64(x: f64) -> f64
    ensures { result ≡ floor_of x }
{
    whole(Rule::Downward, x)
}

// The whole number nearest to x, a half to the even one.
pub fn half_even_f64(x: f64) -> f64
    ensures { result ≡ half_even_of x }
{
    whole(Rule::HalfEven, x)
}

// The pattern of the f32 nearest to the size of the finite f64 whose pattern is b.
fn narrow(b: u64) -> u64
    requires { field binary64 b < 2047 }
    ensures { result ≡ Ieee.to_bits binary32 (Ieee.round binary32 false (digits binary64 b * 2 ^ (field binary64 b - 1)) (2 ^ 1074)) }
{
    let e = b % SIGN / LEADING;
    // subnormal as an f32, whose last digit stands at 2^-149
    if e < 897 {
        return cut(Rule::HalfEven, false, digits_of(b), place_of(b) - 149);
    }
    let m = (e - 897) * 8388608 + cut(Rule::HalfEven, false, digits_of(b), 29);
    if m < 2139095040 { m } else { 2139095040 }
}

// The f32 nearest to x, a tie to the even one.
pub fn f64_to_f32(x: f64) -> f32
    ensures { result ≡ to_format binary32 x }
{
    if x != x {
        return 0.0 / 0.0;
    }
    let b = f64::to_bits(x);
    let sign = b / SIGN * 2147483648;
    if b % SIGN / LEADING == 2047 {
        return f32::from_bits((sign + 2139095040) as u32);
    }
    f32::from_bits((sign + narrow(b)) as u32)
}

// The f64 nearest to n, a tie to the even one.
fn nearest_u64(n: u64) -> f64
    ensures { result ≡ Ieee.of_int binary64 (pos n) }
{
    // an f64 holds every whole number up to 2^53
    if n <= 9007199254740992 {
        return n as f64;
    }
    let place = 11 - u64::leading_zeros(n) as u64;
    f64::from_bits((1074 + place) * LEADING + cut(Rule::HalfEven, false, n, place))
}

// The size of n.
fn size_of(n: i64) -> u64
    ensures { result ≡ unsigned_abs n }
{
    if n >= 0 {
        n as u64
    } else {
        ((-1 - n) as u64) + 1
    }
}

// The f64 nearest to n, a tie to the even one.
pub fn i64_to_f64(n: i64) -> f64
    ensures { result ≡ Ieee.of_int binary64 n }
{
    let m = nearest_u64(size_of(n));
    if n >= 0 { m } else { -m }
}

// x without its fraction, stopping at the ends of an i64; a NaN gives 0.
pub fn f64_to_i64(x: f64) -> i64
    ensures { result ≡ Ieee.to_signed 63 x }
{
    if x >= -TWO_63 {
        if x < TWO_63 {
            return std::num::truncating_f64_to_i64(x);
        }
        return 9223372036854775807;
    }
    if x != x {
        return 0;
    }
    -9223372036854775808
}

// The greatest whole number that is not above x, stopping at the ends of an i64; a NaN gives 0.
pub fn floor_to_i64(x: f64) -> i64
    ensures { result ≡ Ieee.to_signed 63 (floor_of x) }
{
    if x != x {
        return 0;
    }
    let b = f64::to_bits(x);
    // no digit stands below 1
    if b % SIGN / LEADING >= 1075 {
        return f64_to_i64(x);
    }
    if b >= SIGN {
        return -(whole_size(Rule::Downward, true, b) as i64);
    }
    whole_size(Rule::Downward, false, b) as i64
}
