// The Q15 decoder's record: construction, the calls that only set fields, and the read-outs.
ghost use Rattle.std.specs.Prelude.{◌≡◌, true, false, pos};
ghost use Rattle.decoder_record.specs.State.{enabled_of, reset_of};
ghost use Rattle.decoder_record_q15.specs.Fit.{fits64, guard_of};
ghost use Rattle.decoder_gains.specs.Gains.{imax_hz, gains};
ghost use Rattle.lookup.specs.Lookup.{quarter};
ghost use Rattle.decoder_record_q15.specs.Fresh.{fresh_q15, holds64, all_hold, build_q15, new_q15_of, fraction};
ghost use Rattle.decoder_record_q15.specs.Records.{pll_of_q15, says_q15};

use answers::answer::Refusal;
use decoder_gains::{LoopGains, common};
use floats::bits::{floor_f64, i64_to_f64};
use scale::scale::floor_scaled;

// The same fields as in f32: kp and ki in 2^-34, the integrator and its limit in 2^-64 turns a
// sample, beta in 2^-31, the level and its two thresholds in 2^-61.
#[derive(Clone, Copy)]
pub struct StereoPllQ15 {
    pub kp: i64,
    pub ki: i64,
    pub imax: i64,
    pub beta: i64,
    pub on: i64,
    pub off: i64,
    pub step0: u32,
    pub phase: u32,
    pub integ: i64,
    pub level: i64,
    pub stereo: bool,
    pub enabled: bool,
}

// The scales of the gains.
const TWO_31: f64 = 2147483648.0;

const TWO_34: f64 = 17179869184.0;

const TWO_61: f64 = 2305843009213693952.0;

const TWO_64: f64 = 18446744073709551616.0;

// Whether x times the scale, rounded, is below 2^63 in size.
fn holds(x: f64, scale: f64) -> bool
    ensures { result ≡ holds64 x scale }
{
    let v = floor_f64(x * scale + 0.5);
    if v < 9223372036854775808.0 {
        v > -9223372036854775808.0
    } else {
        false
    }
}

fn all_hold(g: LoopGains) -> bool
    ensures { result ≡ all_hold (gains g) }
{
    let levels = holds(g.on, TWO_61) & holds(g.off, TWO_61);
    let rest = holds(g.imax, TWO_64) & (holds(g.beta, TWO_31) & levels);
    holds(g.kp, TWO_34) & (holds(g.ki, TWO_34) & rest)
}

// Whether gain times 2^30 plus imax fits an i64.
pub fn guard_fits(gain: i64, imax: i64) -> bool
    ensures { result ≡ fits64 (guard_of gain imax) }
{
    // the sum's upper part: gain plus imax divided by 2^30, rounded down
    let high = imax >> 30;
    if gain > 8589934591 - high {
        return false;
    }
    gain >= -8589934592 - high
}

// A fresh decoder with these gains.
fn fresh(g: LoopGains) -> StereoPllQ15
    ensures { pll_of_q15 result ≡ fresh_q15 (gains g) }
{
    StereoPllQ15 {
        kp: floor_scaled(g.kp, TWO_34),
        ki: floor_scaled(g.ki, TWO_34),
        imax: floor_scaled(g.imax, TWO_64),
        beta: floor_scaled(g.beta, TWO_31),
        on: floor_scaled(g.on, TWO_61),
        off: floor_scaled(g.off, TWO_61),
        step0: g.step0,
        phase: 0,
        integ: 0,
        level: 0,
        stereo: false,
        enabled: true,
    }
}

// The causes 7 and 8, in order.
fn build(g: LoopGains) -> Result<StereoPllQ15, Refusal>
    ensures { says_q15 result ≡ build_q15 (gains g) }
{
    let d = fresh(g);
    if !(all_hold(g) & (guard_fits(d.kp, d.imax) & guard_fits(d.ki, d.imax))) {
        return Err(Refusal::Wide);
    }
    if d.ki == 0 {
        return Err(Refusal::ZeroGain);
    }
    if d.beta == 0 {
        return Err(Refusal::ZeroGain);
    }
    Ok(d)
}

impl StereoPllQ15 {
    // The integrator's limit and a quarter of a turn, as both formats have them.
    pub const IMAX_HZ: f64 = decoder_gains::IMAX_HZ;

    pub const QUARTER: u32 = lookup::lookup::QUARTER;

    pub fn imax_hz() -> f64
        ensures { result ≡ imax_hz }
    {
        StereoPllQ15::IMAX_HZ
    }

    pub fn quarter() -> u32
        ensures { result ≡ quarter }
    {
        StereoPllQ15::QUARTER
    }

    pub fn new(
        pilot: f64,
        natural: f64,
        level: f64,
        beta: f64,
        rate: f64,
    ) -> Result<StereoPllQ15, Refusal>
        ensures { says_q15 result ≡ new_q15_of pilot natural level beta rate }
    {
        let gains = common(pilot, natural, level, beta, rate)?;
        build(gains)
    }

    pub fn enable(mut self) -> StereoPllQ15
        ensures { pll_of_q15 result ≡ enabled_of true (pll_of_q15 self) }
    {
        self.enabled = true;
        self
    }

    pub fn disable(mut self) -> StereoPllQ15
        ensures { pll_of_q15 result ≡ enabled_of false (pll_of_q15 self) }
    {
        self.enabled = false;
        self
    }

    pub fn reset(mut self) -> StereoPllQ15
        ensures { pll_of_q15 result ≡ reset_of (pos 0) (pll_of_q15 self) }
    {
        self.phase = 0;
        self.integ = 0;
        self.level = 0;
        self.stereo = false;
        self
    }

    pub fn is_stereo(self) -> bool
        ensures { result ≡ self.stereo }
    {
        self.stereo
    }

    pub fn phase(self) -> u32
        ensures { result ≡ self.phase }
    {
        self.phase
    }

    pub fn is_enabled(self) -> bool
        ensures { result ≡ self.enabled }
    {
        self.enabled
    }

    // The integrator in turns a sample.
    pub fn integrator(self) -> f64
        ensures { result ≡ fraction 64 self.integ }
    {
        i64_to_f64(self.integ) / TWO_64
    }

    pub fn integrator_limit(self) -> f64
        ensures { result ≡ fraction 64 self.imax }
    {
        i64_to_f64(self.imax) / TWO_64
    }

    pub fn lock_level(self) -> f64
        ensures { result ≡ fraction 61 self.level }
    {
        i64_to_f64(self.level) / TWO_61
    }
}
