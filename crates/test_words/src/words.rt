// A value and the word of 64 bits that stands for it in the list: an i16, an i32 or an i64 with its
// sign extended, a u32 or an f32's pattern with zeros above it, an f64's pattern, 1 or 0 for a bool.
ghost use Rattle.std.specs.Prelude.{◌≡◌, cond, ◌%◌, ◌^◌, ltb};
ghost use Rattle.std.specs.Float.{binary32, binary64};
ghost use Rattle.std.specs.Float.Ieee.{of_bits, to_bits};
ghost use Rattle.test_words.specs.Words.{word_of, signed_of, is_signed};

pub fn i64_of(w: u64) -> i64
    ensures { result ≡ signed_of 64 w }
{
    if w < 9223372036854775808 {
        w as i64
    } else {
        !((18446744073709551615 - w) as i64)
    }
}

pub fn word_i64(x: i64) -> u64
    ensures { result ≡ word_of x }
{
    if x >= 0 {
        x as u64
    } else {
        18446744073709551615 - ((-1 - x) as u64)
    }
}

pub fn is_i16(w: u64) -> bool
    ensures { result ≡ is_signed 16 w }
{
    if w < 32768 {
        return true;
    }
    w >= 18446744073709518848
}

pub fn i16_of(w: u64) -> i16
    ensures { result ≡ signed_of 16 w }
{
    let low = w % 65536;
    if low < 32768 {
        low as i16
    } else {
        !((65535 - low) as i16)
    }
}

pub fn word_i16(x: i16) -> u64
    ensures { result ≡ word_of x }
{
    word_i64(x as i64)
}

pub fn word_i32(x: i32) -> u64
    ensures { result ≡ word_of x }
{
    word_i64(x as i64)
}

pub fn is_u32(w: u64) -> bool
    ensures { result ≡ ltb w (2 ^ 32) }
{
    w < 4294967296
}

pub fn u32_of(w: u64) -> u32
    ensures { result ≡ w % 2 ^ 32 }
{
    (w % 4294967296) as u32
}

pub fn word_u32(x: u32) -> u64
    ensures { result ≡ x }
{
    x as u64
}

pub fn word_bool(x: bool) -> u64
    ensures { result ≡ cond x 1 0 }
{
    u64::from(x)
}

// A NaN's pattern gives the NaN of 0.0 / 0.0: from_bits is not defined there.
pub fn f32_of(w: u64) -> f32
    ensures { result ≡ of_bits binary32 (w % 2 ^ 32) }
{
    let b = u32_of(w);
    if b % 2147483648 > 2139095040 {
        return 0.0 / 0.0;
    }
    f32::from_bits(b)
}

// Every NaN has one word, since any NaN matches any NaN.
pub fn word_f32(x: f32) -> u64
    ensures { result ≡ to_bits binary32 x }
{
    if x != x {
        return 0x7FC0_0000;
    }
    word_u32(f32::to_bits(x))
}

// A NaN's pattern gives the NaN of 0.0 / 0.0: from_bits is not defined there.
pub fn f64_of(w: u64) -> f64
    ensures { result ≡ of_bits binary64 w }
{
    if w % 9223372036854775808 > 9218868437227405312 {
        return 0.0 / 0.0;
    }
    f64::from_bits(w)
}

// Every NaN has one word, since any NaN matches any NaN.
pub fn word_f64(x: f64) -> u64
    ensures { result ≡ to_bits binary64 x }
{
    if x != x {
        return 0x7FF8_0000_0000_0000;
    }
    f64::to_bits(x)
}
