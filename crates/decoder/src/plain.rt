// The plain f32 block: document 01's steps, one after the other (reference/stereo.rs).
ghost use Rattle.std.specs.Prelude.{◌≡◌, length};
ghost use Rattle.answers.specs.Answer.{says, accepted};
ghost use Rattle.decoder.specs.Machine.{step_of, run_of, block_of};
ghost use Rattle.decoder.specs.F32.{f32};
ghost use Rattle.decoder_record.specs.Records.{pll_of_f32};

use crate::lengths::block_lengths;
use crate::parts::{ReplyF32, StepF32, advanced, full_table};
use decoder_parts::in_f32::{accumulated, demodulated, error_of, level_of, stereo_of, within};
use decoder_record::pll_f32::StereoPllF32;
use lookup::lookup::{cos_f32, sine_at, sine_at_twice};
use phase::correction::correction_plain;

// One sample.
fn step(table: &[f32], d: StereoPllF32, x: f32, p: f32) -> StepF32
    ensures { record { sum = x; difference = result.difference; pll = pll_of_f32 result.next }
        ≡ step_of f32 table.now (pll_of_f32 d) x p }
{
    let c = cos_f32(table, d.phase);
    let s = cos_f32(table, sine_at(d.phase));
    let s2 = cos_f32(table, sine_at_twice(d.phase));
    let e = error_of(p, c);
    let level = level_of(p, s, d.beta, d.level);
    let stereo = stereo_of(p, level, d.on, d.off, d.stereo);
    let difference = demodulated(stereo & d.enabled, x, s2);
    let integ = within(d.imax, accumulated(d.integ, d.ki, e));
    let correction = correction_plain(d.kp * e + integ);
    StepF32 {
        next: advanced(d, correction, integ, level, stereo),
        difference,
    }
}

// The samples in order.
fn run(
    d: StereoPllF32,
    table: &[f32],
    mpx: &[f32],
    pilot: &[f32],
    sum: &mut [f32],
    difference: &mut [f32],
) -> StereoPllF32
    requires { (length pilot.now ≡ length mpx.now)
        × (length sum.old ≡ length mpx.now)
        × (length difference.old ≡ length mpx.now) }
    ensures { record { said = accepted; sum = sum.new; difference = difference.new; pll = pll_of_f32 result }
        ≡ run_of f32 (pll_of_f32 d) table.now mpx.now pilot.now }
{
    let mut st = d;
    for i in 0..mpx.len() {
        let x = mpx[i];
        let p = pilot[i];
        let o = step(table, st, x, p);
        sum[i] = x;
        difference[i] = o.difference;
        st = o.next;
    }
    st
}

// A block, the plain way.
pub fn block(
    d: StereoPllF32,
    table: &[f32],
    mpx: &[f32],
    pilot: &[f32],
    sum: &mut [f32],
    difference: &mut [f32],
) -> ReplyF32
    ensures { record {
      said = says result.answer;
      sum = sum.new;
      difference = difference.new;
      pll = pll_of_f32 result.decoder;
    }
        ≡ block_of f32 (pll_of_f32 d) table.now mpx.now pilot.now
        sum.old difference.old }
{
    let answer = block_lengths(
        table.len(),
        mpx.len(),
        pilot.len(),
        sum.len(),
        difference.len(),
    );
    if answer.is_err() {
        return ReplyF32 { answer, decoder: d };
    }
    let cosines = full_table(table);
    let decoder = run(d, cosines, mpx, pilot, sum, difference);
    ReplyF32 { answer, decoder }
}
