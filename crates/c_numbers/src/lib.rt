// The number helpers, the lookups and the corrections under C names, so that they can be compared
// with the Rust by themselves. Each function has the contract of the one that it calls. A slice is a
// pointer and then a length.
#![tactic(auto)]

ghost use Rattle.std.specs.Prelude.{◌≡◌, ◌^◌, pos, ◌*ℤ◌};
ghost use Rattle.std.specs.Float.Ieee as Ieee;
ghost use Rattle.std.specs.Float.{binary32, binary64};
ghost use Rattle.std.specs.Float.Ieee.Scale.{finite};
ghost use Rattle.numbers.specs.Integers.{sat16_of, round_shift_of, mod_z, phase_times};
ghost use Rattle.numbers.specs.Integers.{q15_mul_of, q15_add_of, q15_sub_of};
ghost use Rattle.floats.specs.Floats.{floor_of, half_even_of, to_format};
ghost use Rattle.numbers.specs.Flush.{flush_of};
ghost use Rattle.scale.specs.Scaled.{scaled_of, q15_from_of, q14_from_of};
ghost use Rattle.lookup.specs.Lookup.{cos_f32, pair_f32, cos_q15};
ghost use Rattle.phase.specs.Correction.{correction_of, quick_serves, corrected_of};
ghost use Rattle.answers.specs.Coded.{coded_new};

use lookup::lookup::Pair;
use phase::correction::Corrected;

// 0 and the value, or 100 and the cause's number, and 0.
#[repr(C)]
#[derive(Clone, Copy)]
pub struct CodedQ14 {
    pub code: u32,
    pub value: i16,
}

#[unsafe(no_mangle)]
pub extern "C" fn pescrondilu_sat16(x: i64) -> i16
    ensures { result ≡ sat16_of x }
{
    numbers::fixed::sat16(x)
}

#[unsafe(no_mangle)]
pub extern "C" fn pescrondilu_round_shift(x: i64, s: u32) -> i64
    ensures { result ≡ round_shift_of x s }
{
    numbers::fixed::round_shift(x, s)
}

#[unsafe(no_mangle)]
pub extern "C" fn pescrondilu_q15_product(a: i16, b: i16) -> i64
    ensures { result ≡ a *ℤ b }
{
    numbers::fixed::q15_product(a, b)
}

#[unsafe(no_mangle)]
pub extern "C" fn pescrondilu_q15_mul(a: i16, b: i16) -> i16
    ensures { result ≡ q15_mul_of a b }
{
    numbers::fixed::q15_mul(a, b)
}

#[unsafe(no_mangle)]
pub extern "C" fn pescrondilu_q15_add_sat(a: i16, b: i16) -> i16
    ensures { result ≡ q15_add_of a b }
{
    numbers::fixed::q15_add_sat(a, b)
}

#[unsafe(no_mangle)]
pub extern "C" fn pescrondilu_q15_sub_sat(a: i16, b: i16) -> i16
    ensures { result ≡ q15_sub_of a b }
{
    numbers::fixed::q15_sub_sat(a, b)
}

#[unsafe(no_mangle)]
pub extern "C" fn pescrondilu_low32(x: i64) -> u32
    ensures { result ≡ mod_z x (2 ^ 32) }
{
    numbers::fixed::low32(x)
}

#[unsafe(no_mangle)]
pub extern "C" fn pescrondilu_phase_twice(p: u32) -> u32
    ensures { result ≡ phase_times 2 p }
{
    numbers::fixed::phase_twice(p)
}

#[unsafe(no_mangle)]
pub extern "C" fn pescrondilu_phase_thrice(p: u32) -> u32
    ensures { result ≡ phase_times 3 p }
{
    numbers::fixed::phase_thrice(p)
}

#[unsafe(no_mangle)]
pub extern "C" fn pescrondilu_floor_f64(x: f64) -> f64
    ensures { result ≡ floor_of x }
{
    floats::bits::floor_f64(x)
}

#[unsafe(no_mangle)]
pub extern "C" fn pescrondilu_half_even_f64(x: f64) -> f64
    ensures { result ≡ half_even_of x }
{
    floats::bits::half_even_f64(x)
}

#[unsafe(no_mangle)]
pub extern "C" fn pescrondilu_f64_to_f32(x: f64) -> f32
    ensures { result ≡ to_format binary32 x }
{
    floats::bits::f64_to_f32(x)
}

#[unsafe(no_mangle)]
pub extern "C" fn pescrondilu_i64_to_f64(n: i64) -> f64
    ensures { result ≡ Ieee.of_int binary64 n }
{
    floats::bits::i64_to_f64(n)
}

#[unsafe(no_mangle)]
pub extern "C" fn pescrondilu_f64_to_i64(x: f64) -> i64
    ensures { result ≡ Ieee.to_signed 63 x }
{
    floats::bits::f64_to_i64(x)
}

#[unsafe(no_mangle)]
pub extern "C" fn pescrondilu_f32_to_f64(x: f32) -> f64
    ensures { result ≡ x }
{
    finite::finite::f32_to_f64(x)
}

#[unsafe(no_mangle)]
pub extern "C" fn pescrondilu_is_finite_f32(x: f32) -> bool
    ensures { result ≡ finite x }
{
    finite::finite::is_finite_f32(x)
}

#[unsafe(no_mangle)]
pub extern "C" fn pescrondilu_is_finite_f64(x: f64) -> bool
    ensures { result ≡ finite x }
{
    finite::finite::is_finite_f64(x)
}

#[unsafe(no_mangle)]
pub extern "C" fn pescrondilu_flush_denormal(x: f32) -> f32
    ensures { result ≡ flush_of x }
{
    numbers::float::flush_denormal(x)
}

#[unsafe(no_mangle)]
pub extern "C" fn pescrondilu_floor_scaled(x: f64, scale: f64) -> i64
    ensures { result ≡ scaled_of x scale }
{
    scale::scale::floor_scaled(x, scale)
}

#[unsafe(no_mangle)]
pub extern "C" fn pescrondilu_q15_from_f64(x: f64) -> i16
    ensures { result ≡ q15_from_of x }
{
    scale::scale::q15_from_f64(x)
}

#[unsafe(no_mangle)]
pub extern "C" fn pescrondilu_q14_from_f64(x: f64) -> CodedQ14
    ensures { record { code = result.code; value = result.value } ≡ coded_new (pos 0) (q14_from_of x) }
{
    match scale::scale::q14_from_f64(x) {
        Ok(value) => CodedQ14 { code: 0, value },
        Err(refusal) => CodedQ14 {
            code: 100 + refusal.number(),
            value: 0,
        },
    }
}

#[unsafe(no_mangle)]
pub extern "C" fn pescrondilu_cos_f32(table: &[f32], p: u32) -> f32
    ensures { result ≡ cos_f32 table.now p }
{
    lookup::lookup::cos_f32(table, p)
}

#[unsafe(no_mangle)]
pub extern "C" fn pescrondilu_interp_f32_pair(table: &[f32], p: u32) -> Pair
    ensures { result ≡ pair_f32 table.now p }
{
    lookup::lookup::interp_f32_pair(table, p)
}

#[unsafe(no_mangle)]
pub extern "C" fn pescrondilu_cos_q15(table: &[i16], p: u32) -> i16
    ensures { result ≡ cos_q15 table.now p }
{
    lookup_q15::in_q15::cos_q15(table, p)
}

#[unsafe(no_mangle)]
pub extern "C" fn pescrondilu_interp_q15(table: &[i16], p: u32) -> i32
    ensures { result ≡ cos_q15 table.now p }
{
    lookup_q15::in_q15::interp_q15(table, p)
}

#[unsafe(no_mangle)]
pub extern "C" fn pescrondilu_correction_plain(f: f32) -> u32
    ensures { result ≡ correction_of f }
{
    phase::correction::correction_plain(f)
}

#[unsafe(no_mangle)]
pub extern "C" fn pescrondilu_correction_fast(f: f32) -> Corrected
    ensures { result ≡ corrected_of f }
{
    phase::correction::correction_fast(f)
}

#[unsafe(no_mangle)]
pub extern "C" fn pescrondilu_quick_serves(v: f64) -> bool
    ensures { result ≡ quick_serves v }
{
    phase::correction::quick_serves(v)
}
