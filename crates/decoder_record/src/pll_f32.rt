// The f32 decoder's record: construction, the calls that only set fields, and the read-outs.
ghost use Rattle.std.specs.Prelude.{◌≡◌, true, false};
ghost use Rattle.decoder_record.specs.State.{enabled_of, reset_of};
ghost use Rattle.decoder_gains.specs.Gains.{nought, imax_hz, gains};
ghost use Rattle.lookup.specs.Lookup.{quarter};
ghost use Rattle.decoder_record.specs.Fresh.{fresh_f32, new_f32_of};
ghost use Rattle.decoder_record.specs.Records.{pll_of_f32, says_f32};

use answers::answer::Refusal;
use decoder_gains::{LoopGains, common};
use finite::finite::f32_to_f64;
use floats::bits::f64_to_f32;

// The loop's gains, its step and phase, the integrator, the lock level and the two switches.
#[derive(Clone, Copy)]
pub struct StereoPllF32 {
    pub kp: f32,
    pub ki: f32,
    pub imax: f32,
    pub beta: f32,
    pub on: f32,
    pub off: f32,
    pub step0: u32,
    pub phase: u32,
    pub integ: f32,
    pub level: f32,
    pub stereo: bool,
    pub enabled: bool,
}

// A fresh decoder with these gains.
fn fresh(g: LoopGains) -> StereoPllF32
    ensures { pll_of_f32 result ≡ fresh_f32 (gains g) }
{
    StereoPllF32 {
        kp: f64_to_f32(g.kp),
        ki: f64_to_f32(g.ki),
        imax: f64_to_f32(g.imax),
        beta: f64_to_f32(g.beta),
        on: f64_to_f32(g.on),
        off: f64_to_f32(g.off),
        step0: g.step0,
        phase: 0,
        integ: 0.0,
        level: 0.0,
        stereo: false,
        enabled: true,
    }
}

impl StereoPllF32 {
    // The integrator's limit and a quarter of a turn, as both formats have them.
    pub const IMAX_HZ: f64 = decoder_gains::IMAX_HZ;

    pub const QUARTER: u32 = lookup::lookup::QUARTER;

    pub fn imax_hz() -> f64
        ensures { result ≡ imax_hz }
    {
        StereoPllF32::IMAX_HZ
    }

    pub fn quarter() -> u32
        ensures { result ≡ quarter }
    {
        StereoPllF32::QUARTER
    }

    pub fn new(
        pilot: f64,
        natural: f64,
        level: f64,
        beta: f64,
        rate: f64,
    ) -> Result<StereoPllF32, Refusal>
        ensures { says_f32 result ≡ new_f32_of pilot natural level beta rate }
    {
        let gains = common(pilot, natural, level, beta, rate)?;
        Ok(fresh(gains))
    }

    pub fn enable(mut self) -> StereoPllF32
        ensures { pll_of_f32 result ≡ enabled_of true (pll_of_f32 self) }
    {
        self.enabled = true;
        self
    }

    pub fn disable(mut self) -> StereoPllF32
        ensures { pll_of_f32 result ≡ enabled_of false (pll_of_f32 self) }
    {
        self.enabled = false;
        self
    }

    pub fn reset(mut self) -> StereoPllF32
        ensures { pll_of_f32 result ≡ reset_of nought (pll_of_f32 self) }
    {
        self.phase = 0;
        self.integ = 0.0;
        self.level = 0.0;
        self.stereo = false;
        self
    }

    pub fn is_stereo(self) -> bool
        ensures { result ≡ self.stereo }
    {
        self.stereo
    }

    pub fn phase(self) -> u32
        ensures { result ≡ self.phase }
    {
        self.phase
    }

    pub fn is_enabled(self) -> bool
        ensures { result ≡ self.enabled }
    {
        self.enabled
    }

    // The integrator in turns a sample.
    pub fn integrator(self) -> f64
        ensures { result ≡ self.integ }
    {
        f32_to_f64(self.integ)
    }

    pub fn integrator_limit(self) -> f64
        ensures { result ≡ self.imax }
    {
        f32_to_f64(self.imax)
    }

    pub fn lock_level(self) -> f64
        ensures { result ≡ self.level }
    {
        f32_to_f64(self.level)
    }
}
