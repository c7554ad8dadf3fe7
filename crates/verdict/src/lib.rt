// Whether a pilot of this frequency and amplitude may go on air.
#![tactic(auto)]

ghost use Rattle.std.specs.Prelude.{◌≡◌};
ghost use Rattle.verdict.specs.Verdict.{on_air_of};

pub fn on_air(frequency: f64, amplitude: f32) -> bool
    ensures { result ≡ on_air_of frequency amplitude }
{
    let good_amplitude = (amplitude >= 0.08) & (amplitude <= 0.1);
    let good_frequency = (frequency >= 18998.0) & (frequency <= 19002.0);
    good_amplitude & good_frequency
}
