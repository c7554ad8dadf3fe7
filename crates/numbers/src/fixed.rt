// Whole numbers: limits, the rounding shift, Q15, and phases modulo 2^32.
ghost use Rattle.std.specs.Prelude.{◌≡◌, ◌^◌, ◌*ℤ◌};
ghost use Rattle.numbers.specs.Integers.{sat16_of, round_shift_of, q15_mul_of, q15_add_of, q15_sub_of, mod_z, phase_times};

// x limited to what an i16 holds.
pub fn sat16(x: i64) -> i16
    ensures { result ≡ sat16_of x }
{
    if x > 32767 {
        32767
    } else if x < -32768 {
        -32768
    } else {
        x as i16
    }
}

// x divided by 2^s, a half rounded up.
pub fn round_shift(x: i64, s: u32) -> i64
    ensures { result ≡ round_shift_of x s }
{
    if s == 0 {
        return x;
    }
    if s >= 63 {
        if x < 0 {
            return -1;
        }
        return 0;
    }
    let half: i64 = 1 << (s - 1);
    // the sum would pass the largest i64, and stops there
    if x > 9223372036854775807 - half {
        return 9223372036854775807 >> s;
    }
    (x + half) >> s
}

// The exact product of two Q15 numbers, at most 2^30 in size.
pub fn q15_product(a: i16, b: i16) -> i64
    ensures { result ≡ a *ℤ b }
{
    (a as i64) * (b as i64)
}

// The product of two Q15 numbers, rounded and limited.
pub fn q15_mul(a: i16, b: i16) -> i16
    ensures { result ≡ q15_mul_of a b }
{
    sat16(round_shift(q15_product(a, b), 15))
}

// The sum of two Q15 numbers, limited.
pub fn q15_add_sat(a: i16, b: i16) -> i16
    ensures { result ≡ q15_add_of a b }
{
    sat16(a as i64 + b as i64)
}

// The difference of two Q15 numbers, limited.
pub fn q15_sub_sat(a: i16, b: i16) -> i16
    ensures { result ≡ q15_sub_of a b }
{
    sat16(a as i64 - b as i64)
}

// x modulo 2^32: its low 32 bits.
pub fn low32(x: i64) -> u32
    ensures { result ≡ mod_z x (2 ^ 32) }
{
    let turns = x >> 32;
    (x - 4294967296 * turns) as u32
}

// Twice a phase.
pub fn phase_twice(p: u32) -> u32
    ensures { result ≡ phase_times 2 p }
{
    std::num::wrapping_add_u32(p, p)
}

// Three times a phase.
pub fn phase_thrice(p: u32) -> u32
    ensures { result ≡ phase_times 3 p }
{
    std::num::wrapping_add_u32(phase_twice(p), p)
}
