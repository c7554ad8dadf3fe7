// The samples of a block whose pilot may not be finite.
ghost use Rattle.std.specs.Prelude.{◌≡◌, length};
ghost use Rattle.phase.specs.Correction.{is_wide};
ghost use Rattle.answers.specs.Answer.{accepted};
ghost use Rattle.decoder.specs.Machine.{step_of, run_of};
ghost use Rattle.decoder.specs.F32.{f32};
ghost use Rattle.decoder_record.specs.Records.{pll_of_f32};
ghost use Rattle.decoder_fast.specs.Wide.{wide_at, wide_up_to};

use crate::{FastRun, FastStep};
use decoder::parts::advanced;
use decoder_parts::in_f32::{demodulated, error_of, integrated, level_of, stereo_of};
use decoder_record::pll_f32::StereoPllF32;
use lookup::lookup::{cos_f32, interp_f32_pair, sine_at_twice};
use phase::correction::correction_fast;

// One sample.
pub fn step_checked(table: &[f32], d: StereoPllF32, x: f32, p: f32) -> FastStep
    ensures leaves { record { sum = x; difference = result.difference; pll = pll_of_f32 result.next }
        ≡ step_of f32 table.now (pll_of_f32 d) x p }
    ensures wide { result.wide ≡ wide_at f32 is_wide table.now (pll_of_f32 d) p }
{
    let cs = interp_f32_pair(table, d.phase);
    let s2 = cos_f32(table, sine_at_twice(d.phase));
    let e = error_of(p, cs.c);
    let level = level_of(p, cs.s, d.beta, d.level);
    let stereo = stereo_of(p, level, d.on, d.off, d.stereo);
    let difference = demodulated(stereo & d.enabled, x, s2);
    let integ = integrated(d.imax, d.integ, d.ki, e);
    let k = correction_fast(d.kp * e + integ);
    FastStep {
        next: advanced(d, k.step, integ, level, stereo),
        difference,
        wide: !k.quick,
    }
}

// The samples in order, each tested.
pub(crate) fn run_checked(
    d: StereoPllF32,
    table: &[f32],
    mpx: &[f32],
    pilot: &[f32],
    sum: &mut [f32],
    difference: &mut [f32],
) -> FastRun
    requires { (length pilot.now ≡ length mpx.now)
        × (length sum.old ≡ length mpx.now)
        × (length difference.old ≡ length mpx.now) }
    ensures leaves { record {
      said = accepted;
      sum = sum.new;
      difference = difference.new;
      pll = pll_of_f32 result.decoder;
    }
        ≡ run_of f32 (pll_of_f32 d) table.now mpx.now pilot.now }
    ensures wide { result.wide ≡ wide_up_to f32 is_wide table.now mpx.now pilot.now (pll_of_f32 d)
        (length mpx.now) }
{
    let mut st = d;
    let mut wide = 0usize;
    for i in 0..mpx.len() {
        let x = mpx[i];
        let p = pilot[i];
        let o = step_checked(table, st, x, p);
        sum[i] = x;
        difference[i] = o.difference;
        st = o.next;
        wide += o.wide as usize;
    }
    FastRun { decoder: st, wide }
}
