// From f64 to fixed point: floor(x times a scale + 0.5).
ghost use Rattle.std.specs.Prelude.{◌≡◌};
ghost use Rattle.answers.specs.Answer.{says_made};
ghost use Rattle.scale.specs.Scaled.{scaled_of, q15_from_of, q14_from_of};

use answers::answer::Refusal;

// x times the scale, rounded down from the half above it, stopping at the ends of an i64; a NaN
// gives 0.
pub fn floor_scaled(x: f64, scale: f64) -> i64
    ensures { result ≡ scaled_of x scale }
{
    floats::bits::floor_to_i64(x * scale + 0.5)
}

// x as a Q15 number, limited; a NaN gives 0.
pub fn q15_from_f64(x: f64) -> i16
    ensures { result ≡ q15_from_of x }
{
    numbers::fixed::sat16(floor_scaled(x, 32768.0))
}

// x as a Q14 number, refused where an i16 does not hold it.
pub fn q14_from_f64(x: f64) -> Result<i16, Refusal>
    ensures { says_made result ≡ q14_from_of x }
{
    if x != x {
        return Err(Refusal::OutsideQ14);
    }
    let v = floor_scaled(x, 16384.0);
    if v < -32768 {
        return Err(Refusal::OutsideQ14);
    }
    if v > 32767 {
        return Err(Refusal::OutsideQ14);
    }
    Ok(v as i16)
}
