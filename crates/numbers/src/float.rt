// A small float made plus 0.
ghost use Rattle.std.specs.Prelude.{◌≡◌};
ghost use Rattle.numbers.specs.Flush.{flush_of};

// Plus 0 for what is below 1e-30 in magnitude, so that a decaying state never turns subnormal.
pub fn flush_denormal(x: f32) -> f32
    ensures { result ≡ flush_of x }
{
    if x < 1e-30 {
        if x > -1e-30 { 0.0 } else { x }
    } else {
        x
    }
}
