// The calls of the list, by number.

pub const NEW_F32: usize = 0;

pub const HAND_F32: usize = 1;

pub const SET_F32: usize = 2;

pub const BLOCK_F32: usize = 3;

pub const MERGED_F32: usize = 4;

pub const NEW_Q15: usize = 5;

pub const HAND_Q15: usize = 6;

pub const SET_Q15: usize = 7;

pub const BLOCK_Q15: usize = 8;

pub const MERGED_Q15: usize = 9;

pub const COUNT: usize = 10;

// The names in this order, as they begin a line: 16 columns each.
pub const NAMES: [u8; 160] = *b"\
    new_f32         \
    hand_f32        \
    set_f32         \
    block_f32       \
    merged_f32      \
    new_q15         \
    hand_q15        \
    set_q15         \
    block_q15       \
    merged_q15      \
";
