// The functions of the list, by number.

pub const COS_F32: usize = 0;

pub const PAIR_C: usize = 1;

pub const PAIR_S: usize = 2;

pub const COS_Q15: usize = 3;

pub const INTERP_Q15: usize = 4;

pub const CORRECTION_PLAIN: usize = 5;

pub const CORRECTION_FAST: usize = 6;

pub const INCREMENT_FOR: usize = 7;

pub const ADVANCE: usize = 8;

pub const ENCODE_NEW: usize = 9;

pub const ENCODE_RDS_NEW: usize = 10;

pub const SET_PILOT: usize = 11;

pub const SET_RDS: usize = 12;

pub const MATRIX_F32: usize = 13;

pub const MATRIX_Q15: usize = 14;

pub const ENCODE: usize = 15;

pub const ENCODE_RDS: usize = 16;

pub const COUNT: usize = 17;

// The names in this order, as they begin a line: 16 columns each.
pub const NAMES: [u8; 16 * COUNT] = *b"\
    cos_f32         \
    pair_c          \
    pair_s          \
    cos_q15         \
    interp_q15      \
    correction_plain\
    correction_fast \
    increment_for   \
    advance         \
    encode_new      \
    encode_rds_new  \
    set_pilot       \
    set_rds         \
    matrix_f32      \
    matrix_q15      \
    encode          \
    encode_rds      \
";
