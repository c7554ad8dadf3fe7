// The functions of the list, by number.

pub const SAT16: usize = 0;

pub const ROUND_SHIFT: usize = 1;

pub const Q15_PRODUCT: usize = 2;

pub const Q15_MUL: usize = 3;

pub const Q15_ADD_SAT: usize = 4;

pub const Q15_SUB_SAT: usize = 5;

pub const LOW32: usize = 6;

pub const PHASE_TWICE: usize = 7;

pub const PHASE_THRICE: usize = 8;

pub const FLOOR_F64: usize = 9;

pub const HALF_EVEN_F64: usize = 10;

pub const F64_TO_F32: usize = 11;

pub const I64_TO_F64: usize = 12;

pub const F64_TO_I64: usize = 13;

pub const F32_TO_F64: usize = 14;

pub const IS_FINITE_F32: usize = 15;

pub const IS_FINITE_F64: usize = 16;

pub const FLUSH_DENORMAL: usize = 17;

pub const FLOOR_SCALED: usize = 18;

pub const Q15_FROM_F64: usize = 19;

pub const Q14_FROM_F64: usize = 20;

pub const COUNT: usize = 21;

// The names in this order, as they begin a line: 16 columns each.
pub const NAMES: [u8; 16 * COUNT] = *b"\
    sat16           \
    round_shift     \
    q15_product     \
    q15_mul         \
    q15_add_sat     \
    q15_sub_sat     \
    low32           \
    phase_twice     \
    phase_thrice    \
    floor_f64       \
    half_even_f64   \
    f64_to_f32      \
    i64_to_f64      \
    f64_to_i64      \
    f32_to_f64      \
    is_finite_f32   \
    is_finite_f64   \
    flush_denormal  \
    floor_scaled    \
    q15_from_f64    \
    q14_from_f64    \
";
