// The phase correction: floor(f times 2^32 + 0.5) modulo 2^32, the plain and the fast way.
ghost use Rattle.std.specs.Prelude.{◌≡◌};
ghost use Rattle.phase.specs.Correction.{correction_of, quick_serves, quick_of, corrected_of};

// 1.5 times 2^52: added to a number below 2^51 in size it leaves the nearest whole number in the
// low digits.
const MAGIC: f64 = 6755399441055744.0;

// What the fast way gives: the correction, and whether the quick way served.
#[repr(C)]
#[derive(Clone, Copy)]
pub struct Corrected {
    pub step: u32,
    pub quick: bool,
}

// The plain way.
pub fn correction_plain(f: f32) -> u32
    ensures { result ≡ correction_of f }
{
    let x = finite::finite::f32_to_f64(f);
    numbers::fixed::low32(scale::scale::floor_scaled(x, 4294967296.0))
}

// Whether the quick way serves for v, f times 2^32 plus 0.5: |v| is below 2^51, which a NaN is not.
pub fn quick_serves(v: f64) -> bool
    ensures { result ≡ quick_serves v }
{
    if v > -2251799813685248.0 {
        return v < 2251799813685248.0;
    }
    false
}

// The quick way: the correction, where it serves.
pub fn correction_quick(f: f32) -> Option<u32>
    ensures { result ≡ quick_of f }
{
    let v = finite::finite::f32_to_f64(f) * 4294967296.0 + 0.5;
    if quick_serves(v) {
        let m = v + MAGIC;
        let low = (f64::to_bits(m) % 4294967296) as u32;
        let up = (m - MAGIC > v) as u32;
        return Some(std::num::wrapping_sub_u32(low, up));
    }
    None
}

// The fast way: the quick one where it serves, else the plain one; and which of them it was.
pub fn correction_fast(f: f32) -> Corrected
    ensures { result ≡ corrected_of f }
{
    match correction_quick(f) {
        Some(step) => Corrected { step, quick: true },
        None => Corrected {
            step: correction_plain(f),
            quick: false,
        },
    }
}
