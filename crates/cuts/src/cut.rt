// The cut: the digits of an f64's pattern, and the whole number that is left of them at a place.
ghost use Rattle.std.specs.Prelude.{◌≡◌, ◌-◌, ◌^◌};
ghost use Rattle.std.specs.Float.{binary64};
ghost use Rattle.rounding.specs.Cut.{cut_by, grows, rest_by};
ghost use Rattle.rounding.specs.Pattern.{field, digits};
ghost use Rattle.cuts.specs.Rules.{rule_of};

// In an f64's pattern the weight of the sign, and that of the exponent's field, which is also the
// leading one's.
pub const SIGN: u64 = 9223372036854775808;

pub const LEADING: u64 = 4503599627370496;

// How a number that was cut is rounded.
#[derive(Clone, Copy)]
pub enum Rule {
    Downward,
    HalfEven,
}

// Whether a size that was cut grows by one: `first` is the first digit that fell off, and `later`
// says whether another one is set.
pub fn carries(rule: Rule, negative: bool, odd: bool, first: bool, later: bool) -> bool
    ensures { result ≡ grows (rule_of rule) negative odd (rest_by first later) }
{
    match rule {
        Rule::Downward => negative & (first | later),
        Rule::HalfEven => first & (later | odd),
    }
}

// The size of the whole number that d / 2^place becomes.
pub fn cut(rule: Rule, negative: bool, d: u64, place: u64) -> u64
    ensures { result ≡ cut_by (rule_of rule) negative d (2 ^ place) }
{
    if place == 0 {
        return d;
    }
    if place > 64 {
        return carries(rule, negative, false, false, d > 0) as u64;
    }
    let half: u64 = 1 << (place - 1);
    let doubled = d >> (place - 1);
    let kept = doubled / 2;
    kept + carries(
        rule,
        negative,
        kept % 2 == 1,
        doubled % 2 == 1,
        d % half > 0,
    ) as u64
}

// The digits of a finite f64 by its pattern, with the leading one where there is one.
pub fn digits_of(b: u64) -> u64
    ensures { result ≡ digits binary64 b }
{
    let low = b % LEADING;
    if b % SIGN < LEADING {
        low
    } else {
        LEADING + low
    }
}

// Where among these digits 1 stands: the value is the digits over 2^place.
pub fn place_of(b: u64) -> u64
    ensures { result ≡ 1074 - (field binary64 b - 1) }
{
    let e = b % SIGN / LEADING;
    if e == 0 {
        return 1074;
    }
    if e > 1075 {
        return 0;
    }
    1075 - e
}

// The size of the whole number that the finite f64 with the pattern b becomes.
pub fn whole_size(rule: Rule, negative: bool, b: u64) -> u64
    ensures { result ≡ cut_by (rule_of rule) negative (digits binary64 b) (2 ^ (1074 - (field binary64 b - 1))) }
{
    cut(rule, negative, digits_of(b), place_of(b))
}
