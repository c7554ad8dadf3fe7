// Tables and blocks of a seed of 32 bits: as a word it has kind 0, any bits.

// The seeds of the two tables.
pub const TABLE_F32: u64 = 1000000;

pub const TABLE_Q15: u64 = 2000000;

// Blocks of 16 samples.
pub(crate) fn block_f32(seed: u64) -> [f32; 16] {
    let mut out = [0.0f32; 16];
    test_samples::fill_f32(seed % 4294967296, &mut out);
    out
}

pub(crate) fn block_q15(seed: u64) -> [i16; 16] {
    let mut out = [0i16; 16];
    test_samples::fill_q15(seed % 4294967296, &mut out);
    out
}

// The seed of the further slices of a line's block.
pub(crate) fn second(seed: u64) -> u64 {
    seed % 4294967296 + 16
}

pub(crate) fn third(seed: u64) -> u64 {
    seed % 4294967296 + 32
}
