// The samples of a block whose pilot is finite.
ghost use Rattle.std.specs.Prelude.{◌≡◌, true, cond, ◌+◌, ◌^◌, ◌<◌, length};
ghost use Rattle.std.specs.Float.Ieee.Scale.{finite};
ghost use Rattle.phase.specs.Correction.{correction_of, is_wide};
ghost use Rattle.answers.specs.Answer.{accepted};
ghost use Rattle.decoder.specs.Machine.{step_of, run_of};
ghost use Rattle.decoder_parts.specs.Rules.{all_finite};
ghost use Rattle.decoder.specs.F32.{f32};
ghost use Rattle.decoder_record.specs.Records.{pll_of_f32};
ghost use Rattle.decoder_fast.specs.Wide.{wide_at, wide_up_to};

use crate::FastRun;
use decoder::parts::advanced;
use decoder_parts::in_f32::{decided, demodulated, integrated, level_next};
use decoder_record::pll_f32::StereoPllF32;
use lookup::lookup::{cos_f32, interp_f32_pair, sine_at_twice};
use phase::correction::{correction_plain, correction_quick};

// A correction, and how many took the wide way, this one among them.
#[derive(Clone, Copy)]
struct Tally {
    step: u32,
    wide: usize,
}

// A decoder after a sample, the sample's difference output, and how many corrections took the wide way.
#[derive(Clone, Copy)]
struct CleanStep {
    next: StereoPllF32,
    difference: f32,
    wide: usize,
}

// The fast correction, for the clean loop alone. The compiler takes what has one caller into it, and
// leaves outside what has two: so each loop has a correction of its own, and the wide way is no part
// of either. The count is handed through, so that the quick way has nothing to add.
fn correction_clean(f: f32, wide: usize) -> Tally
    requires { wide < 2 ^ 63 }
    ensures step { result.step ≡ correction_of f }
    ensures wide { result.wide ≡ wide + cond (is_wide f) 1 0 }
{
    match correction_quick(f) {
        Some(step) => Tally { step, wide },
        None => Tally {
            step: correction_plain(f),
            wide: wide + 1,
        },
    }
}

// One sample, without the test.
fn step_clean(table: &[f32], d: StereoPllF32, x: f32, p: f32, wide: usize) -> CleanStep
    requires finite { finite p ≡ true }
    requires room { wide < 2 ^ 63 }
    ensures leaves { record { sum = x; difference = result.difference; pll = pll_of_f32 result.next }
        ≡ step_of f32 table.now (pll_of_f32 d) x p }
    ensures wide { result.wide ≡ wide + cond (wide_at f32 is_wide table.now (pll_of_f32 d) p) 1 0 }
{
    let cs = interp_f32_pair(table, d.phase);
    let s2 = cos_f32(table, sine_at_twice(d.phase));
    let e = p * cs.c;
    let level = level_next(d.beta, d.level, p * cs.s);
    let stereo = decided(level, d.on, d.off, d.stereo);
    let difference = demodulated(stereo & d.enabled, x, s2);
    let integ = integrated(d.imax, d.integ, d.ki, e);
    let k = correction_clean(d.kp * e + integ, wide);
    CleanStep {
        next: advanced(d, k.step, integ, level, stereo),
        difference,
        wide: k.wide,
    }
}

// The samples in order, none of which needs the test.
pub(crate) fn run_clean(
    d: StereoPllF32,
    table: &[f32],
    mpx: &[f32],
    pilot: &[f32],
    sum: &mut [f32],
    difference: &mut [f32],
) -> FastRun
    requires { (length pilot.now ≡ length mpx.now)
        × (length sum.old ≡ length mpx.now)
        × (length difference.old ≡ length mpx.now) × (all_finite pilot.now ≡ true) }
    ensures leaves { record {
      said = accepted;
      sum = sum.new;
      difference = difference.new;
      pll = pll_of_f32 result.decoder;
    }
        ≡ run_of f32 (pll_of_f32 d) table.now mpx.now pilot.now }
    ensures wide { result.wide ≡ wide_up_to f32 is_wide table.now mpx.now pilot.now (pll_of_f32 d)
        (length mpx.now) }
{
    let mut st = d;
    let mut wide = 0usize;
    for i in 0..mpx.len() {
        let x = mpx[i];
        let p = pilot[i];
        let o = step_clean(table, st, x, p, wide);
        sum[i] = x;
        difference[i] = o.difference;
        st = o.next;
        wide = o.wide;
    }
    FastRun { decoder: st, wide }
}
