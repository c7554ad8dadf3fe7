// The check of every word, beside the standard's generator matrix.
use std::io;
use std::io::Write;

// The matrix's rows for the bits of a word, from bit 15 down to bit 0.
const ROWS: [u32; 16] = [
    0x077, 0x2E7, 0x3AF, 0x30B, 0x359, 0x370, 0x1B8, 0x0DC, 0x06E, 0x037, 0x2C7, 0x3BF, 0x303,
    0x35D, 0x372, 0x1B9,
];

// The exclusive-or of the rows of a word's bits.
fn by_rows(word: u32) -> u32 {
    let rows = ROWS;
    let mut x = 0u32;
    for k in 0..16usize {
        if (word >> (15 - k)) % 2 == 1 {
            x = x ^ rows[k];
        }
    }
    x
}

// How many of the 65536 words have the same check.
fn agreeing() -> u32 {
    let mut n = 0u32;
    for word in 0..65536u32 {
        if rds_blocks::division::remainder(word * 1024) == by_rows(word) {
            n = std::num::wrapping_add_u32(n, 1);
        }
    }
    n
}

pub(crate) fn run(out: &mut impl Write) -> io::Result<()> {
    writeln!(
        out,
        "checks as by the generator matrix: {} of 65536",
        agreeing()
    )
}
