// Construction of a decoder, what both formats share: the gains in f64 and the causes 1 to 6.
#![tactic(auto)]

ghost use Rattle.std.specs.Prelude.{◌≡◌};
ghost use Rattle.decoder_gains.specs.Gains.{gains_of, narrows, all_narrow, common_of, gains, says_common};

use answers::answer::Refusal;
use finite::finite::{is_finite_f32, is_positive_f64};
use floats::bits::f64_to_f32;
use numbers::fixed::low32;
use scale::scale::floor_scaled;

pub const PI: f64 = 3.141592653589793;

pub const ROOT2: f64 = 1.4142135623730951;

// The integrator stays within this many Hz of the pilot's nominal frequency.
pub const IMAX_HZ: f64 = 50.0;

#[derive(Clone, Copy)]
pub struct LoopGains {
    pub kp: f64,
    pub ki: f64,
    pub imax: f64,
    pub beta: f64,
    pub on: f64,
    pub off: f64,
    pub step0: u32,
}

// The formulas of the loop: damping 1/sqrt 2, the natural frequency in radians a sample, and the
// integrator's limit.
pub fn gains_of(pilot: f64, natural: f64, level: f64, beta: f64, rate: f64) -> LoopGains
    ensures { gains result ≡ gains_of pilot natural level beta rate }
{
    let two_pi = 2.0 * PI;
    let kd = level / 2.0;
    let zeta = 1.0 / ROOT2;
    let wn = two_pi * natural / rate;
    LoopGains {
        kp: 2.0 * zeta * wn / (kd * two_pi),
        ki: wn * wn / (kd * two_pi),
        imax: IMAX_HZ / rate,
        beta,
        on: 0.4 * kd,
        off: 0.3 * kd,
        step0: low32(floor_scaled(pilot / rate, 4294967296.0)),
    }
}

// Whether x as an f32 is finite and not 0.
pub fn is_narrow(x: f64) -> bool
    ensures { result ≡ narrows x }
{
    let y = f64_to_f32(x);
    is_finite_f32(y) & !(y == 0.0)
}

fn are_narrow(g: LoopGains) -> bool
    ensures { result ≡ all_narrow (gains g) }
{
    is_narrow(g.kp)
        & (is_narrow(g.ki)
            & (is_narrow(g.imax) & (is_narrow(g.beta) & (is_narrow(g.on) & is_narrow(g.off)))))
}

// The causes 1 to 6, in order.
pub fn common(
    pilot: f64,
    natural: f64,
    level: f64,
    beta: f64,
    rate: f64,
) -> Result<LoopGains, Refusal>
    ensures { says_common result ≡ common_of pilot natural level beta rate }
{
    if !is_positive_f64(rate) {
        return Err(Refusal::Rate);
    }
    if !(is_positive_f64(pilot) & (pilot < rate / 4.0)) {
        return Err(Refusal::PilotFrequency);
    }
    if !(is_positive_f64(natural) & (natural <= pilot / 100.0)) {
        return Err(Refusal::NaturalFrequency);
    }
    if !(is_positive_f64(level) & (level <= 1.0)) {
        return Err(Refusal::PilotLevel);
    }
    if !((beta >= 0.0) & (beta <= 1.0)) {
        return Err(Refusal::LockCoefficient);
    }
    let g = gains_of(pilot, natural, level, beta, rate);
    if !are_narrow(g) {
        return Err(Refusal::Narrow);
    }
    Ok(g)
}
