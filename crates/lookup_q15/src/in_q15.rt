// The cosine of a phase by linear interpolation in a lent table of 4097 Q15 entries. Where a table
// lacks an entry the answer is 0; the blocks refuse such a table before they look anything up.
ghost use Rattle.std.specs.Prelude.{◌≡◌};
ghost use Rattle.lookup.specs.Lookup.{cos_q15};

// The cosine of a phase in Q15, in 64 bits.
pub fn cos_q15(table: &[i16], p: u32) -> i16
    ensures { result ≡ cos_q15 table.now p }
{
    let i = (p / 1048576) as usize;
    if i + 1 >= table.len() {
        return 0;
    }
    let f = (p / 32 % 32768) as i64;
    let a = table[i] as i64;
    let b = table[i + 1] as i64;
    numbers::fixed::sat16(a + numbers::fixed::round_shift((b - a) * f, 15))
}

// The same in 32 bits: the result lies between its neighbours, so nothing has to be limited.
pub fn interp_q15(table: &[i16], p: u32) -> i32
    ensures { result ≡ cos_q15 table.now p }
{
    let i = (p / 1048576) as usize;
    if i + 1 >= table.len() {
        return 0;
    }
    let f = (p / 32 % 32768) as i32;
    let a = table[i] as i32;
    let b = table[i + 1] as i32;
    a + (((b - a) * f + 16384) >> 15)
}
