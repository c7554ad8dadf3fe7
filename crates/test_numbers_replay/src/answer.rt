// What the crate numbers answers, as a word.
use crate::names;
use test_words::words;

// Whether the arguments are words of the function's types. Where it has one argument the second
// word is 0.
pub(crate) fn is_typed(function: usize, a: u64, b: u64) -> bool {
    match function {
        names::ROUND_SHIFT => words::is_u32(b),
        names::Q15_PRODUCT | names::Q15_MUL | names::Q15_ADD_SAT | names::Q15_SUB_SAT => {
            words::is_i16(a) & words::is_i16(b)
        }
        names::PHASE_TWICE | names::PHASE_THRICE => words::is_u32(a) & (b == 0),
        names::F32_TO_F64 | names::IS_FINITE_F32 | names::FLUSH_DENORMAL => {
            words::is_u32(a) & (b == 0)
        }
        names::FLOOR_SCALED => true,
        _ => b == 0,
    }
}

fn q14(x: f64) -> u64 {
    match scale::scale::q14_from_f64(x) {
        Ok(v) => words::word_i16(v),
        // a refusal's word is 32768 and its number, above every i16
        Err(refusal) => 32768 + refusal.number() as u64,
    }
}

// The functions on whole numbers.
fn whole(function: usize, a: u64, b: u64) -> u64 {
    match function {
        names::SAT16 => words::word_i16(numbers::fixed::sat16(words::i64_of(a))),
        names::ROUND_SHIFT => {
            words::word_i64(numbers::fixed::round_shift(words::i64_of(a), words::u32_of(b)))
        }
        names::Q15_PRODUCT => {
            words::word_i64(numbers::fixed::q15_product(words::i16_of(a), words::i16_of(b)))
        }
        names::Q15_MUL => {
            words::word_i16(numbers::fixed::q15_mul(words::i16_of(a), words::i16_of(b)))
        }
        names::Q15_ADD_SAT => {
            words::word_i16(numbers::fixed::q15_add_sat(words::i16_of(a), words::i16_of(b)))
        }
        names::Q15_SUB_SAT => {
            words::word_i16(numbers::fixed::q15_sub_sat(words::i16_of(a), words::i16_of(b)))
        }
        names::LOW32 => words::word_u32(numbers::fixed::low32(words::i64_of(a))),
        names::PHASE_TWICE => words::word_u32(numbers::fixed::phase_twice(words::u32_of(a))),
        _ => words::word_u32(numbers::fixed::phase_thrice(words::u32_of(a))),
    }
}

// The functions on floats.
fn float(function: usize, a: u64, b: u64) -> u64 {
    match function {
        names::FLOOR_F64 => words::word_f64(floats::bits::floor_f64(words::f64_of(a))),
        names::HALF_EVEN_F64 => words::word_f64(floats::bits::half_even_f64(words::f64_of(a))),
        names::F64_TO_F32 => words::word_f32(floats::bits::f64_to_f32(words::f64_of(a))),
        names::I64_TO_F64 => words::word_f64(floats::bits::i64_to_f64(words::i64_of(a))),
        names::F64_TO_I64 => words::word_i64(floats::bits::f64_to_i64(words::f64_of(a))),
        names::F32_TO_F64 => words::word_f64(finite::finite::f32_to_f64(words::f32_of(a))),
        names::IS_FINITE_F32 => words::word_bool(finite::finite::is_finite_f32(words::f32_of(a))),
        names::IS_FINITE_F64 => words::word_bool(finite::finite::is_finite_f64(words::f64_of(a))),
        names::FLUSH_DENORMAL => words::word_f32(numbers::float::flush_denormal(words::f32_of(a))),
        names::FLOOR_SCALED => {
            words::word_i64(scale::scale::floor_scaled(words::f64_of(a), words::f64_of(b)))
        }
        names::Q15_FROM_F64 => words::word_i16(scale::scale::q15_from_f64(words::f64_of(a))),
        _ => q14(words::f64_of(a)),
    }
}

pub(crate) fn answer(function: usize, a: u64, b: u64) -> u64 {
    if function <= names::PHASE_THRICE {
        whole(function, a, b)
    } else {
        float(function, a, b)
    }
}
