// Which floats are finite, which are positive, and an f32 as an f64.
ghost use Rattle.std.specs.Prelude.{◌≡◌};
ghost use Rattle.std.specs.Float.Ieee.Scale.{finite};
ghost use Rattle.floats.specs.Floats.{positive};

pub fn is_finite_f32(x: f32) -> bool
    ensures { result ≡ finite x }
{
    x - x == 0.0
}

pub fn is_finite_f64(x: f64) -> bool
    ensures { result ≡ finite x }
{
    x - x == 0.0
}

// Finite and above 0.
pub fn is_positive_f64(x: f64) -> bool
    ensures { result ≡ positive x }
{
    is_finite_f64(x) & (x > 0.0)
}

// x, which every f64 holds; a NaN gives a NaN.
pub fn f32_to_f64(x: f32) -> f64
    ensures { result ≡ x }
{
    std::num::f32_to_f64_with_nan(x)
}
