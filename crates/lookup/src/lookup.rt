// The cosine of a phase by linear interpolation in a lent table of 4097 entries. Where a table
// lacks an entry the answer is 0; the blocks refuse such a table before they look anything up.
ghost use Rattle.std.specs.Prelude.{◌≡◌};
ghost use Rattle.lookup.specs.Lookup.{sine_at, cos_f32, pair_f32};

// A quarter of a turn.
pub const QUARTER: u32 = 1073741824;

// The cosine and the sine of a phase.
#[repr(C)]
#[derive(Clone, Copy)]
pub struct Pair {
    pub c: f32,
    pub s: f32,
}

// The phases at which the table's cosine is the sine of the phase, of its double and of its
// triple.
pub fn sine_at(p: u32) -> u32
    ensures { result ≡ sine_at 1 p }
{
    std::num::wrapping_sub_u32(p, QUARTER)
}

pub fn sine_at_twice(p: u32) -> u32
    ensures { result ≡ sine_at 2 p }
{
    std::num::wrapping_sub_u32(numbers::fixed::phase_twice(p), QUARTER)
}

pub fn sine_at_thrice(p: u32) -> u32
    ensures { result ≡ sine_at 3 p }
{
    std::num::wrapping_sub_u32(numbers::fixed::phase_thrice(p), QUARTER)
}

// The cosine of a phase in f32.
pub fn cos_f32(table: &[f32], p: u32) -> f32
    ensures { result ≡ cos_f32 table.now p }
{
    let i = (p / 1048576) as usize;
    if i + 1 >= table.len() {
        return 0.0;
    }
    let f = ((p % 1048576) as f32) * 9.5367431640625e-7;
    let a = table[i];
    let b = table[i + 1];
    a + (b - a) * f
}

// The cosine and the sine of a phase in f32 from one index: a quarter of a turn back is 3072
// entries on, modulo 4096, with the same fraction.
pub fn interp_f32_pair(table: &[f32], p: u32) -> Pair
    ensures { result ≡ pair_f32 table.now p }
{
    let i = (p / 1048576) as usize;
    let j = (i + 3072) % 4096;
    if table.len() < 4097 {
        return Pair {
            c: cos_f32(table, p),
            s: cos_f32(table, sine_at(p)),
        };
    }
    let f = ((p % 1048576) as f32) * 9.5367431640625e-7;
    let a = table[i];
    let b = table[i + 1];
    let sa = table[j];
    let sb = table[j + 1];
    Pair {
        c: a + (b - a) * f,
        s: sa + (sb - sa) * f,
    }
}
