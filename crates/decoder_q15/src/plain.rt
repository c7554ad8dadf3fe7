// The plain Q15 block: document 01's steps, one after the other (reference/stereo.rs).
ghost use Rattle.std.specs.Prelude.{◌≡◌, true, ◌≤◌, ◌^◌, length, nat_abs};
ghost use Rattle.answers.specs.Answer.{says, accepted};
ghost use Rattle.decoder.specs.Machine.{step_of, run_of, block_of};
ghost use Rattle.decoder_record_q15.specs.Fit.{level_fit, fit_q15};
ghost use Rattle.decoder_q15.specs.Q15.{q15, level_q15};
ghost use Rattle.decoder_record_q15.specs.Records.{pll_of_q15};

use crate::parts::{
    ReplyQ15, StepQ15, advanced, block_answer, full_table, level_after, scaled_sum,
};
use decoder_fit_q15::fit::is_fit;
use decoder_parts_q15::in_q15::selected;
use decoder_record_q15::pll_q15::StereoPllQ15;
use lookup::lookup::{sine_at, sine_at_twice};
use lookup_q15::in_q15::cos_q15;
use numbers::fixed::{q15_mul, q15_product, round_shift};

// The level after a sample.
fn level_next(beta: i64, level: i64, q: i64) -> i64
    requires level { level_fit beta level ≡ true }
    requires product { nat_abs q ≤ 2 ^ 30 }
    ensures { result ≡ level_q15 beta level q }
{
    level_after(beta, level, q, round_shift(level, 31))
}

// One sample of a fit decoder.
fn step(table: &[i16], d: StereoPllQ15, x: i16, p: i16) -> StepQ15
    requires { fit_q15 (pll_of_q15 d) ≡ true }
    ensures { record { sum = x; difference = result.difference; pll = pll_of_q15 result.next }
        ≡ step_of q15 table.now (pll_of_q15 d) x p }
{
    let c = cos_q15(table, d.phase);
    let s = cos_q15(table, sine_at(d.phase));
    let s2 = cos_q15(table, sine_at_twice(d.phase));
    let level = level_next(d.beta, d.level, q15_product(p, s));
    let e = q15_product(p, c);
    let next = advanced(d, e, scaled_sum(d.ki, e, d.integ), i64::MAX, level);
    StepQ15 {
        next,
        difference: selected(next.stereo & next.enabled, q15_mul(x, s2)),
    }
}

// The samples in order.
fn run(
    d: StereoPllQ15,
    table: &[i16],
    mpx: &[i16],
    pilot: &[i16],
    sum: &mut [i16],
    difference: &mut [i16],
) -> StereoPllQ15
    requires { (length pilot.now ≡ length mpx.now)
        × (length sum.old ≡ length mpx.now)
        × (length difference.old ≡ length mpx.now) × (fit_q15 (pll_of_q15 d) ≡ true) }
    ensures { record { said = accepted; sum = sum.new; difference = difference.new; pll = pll_of_q15 result }
        ≡ run_of q15 (pll_of_q15 d) table.now mpx.now pilot.now }
{
    let mut st = d;
    for i in 0..mpx.len() {
        let x = mpx[i];
        let p = pilot[i];
        let o = step(table, st, x, p);
        sum[i] = x;
        let y = o.difference;
        difference[i] = y;
        st = o.next;
    }
    st
}

// A block, the plain way.
pub fn block(
    d: StereoPllQ15,
    table: &[i16],
    mpx: &[i16],
    pilot: &[i16],
    sum: &mut [i16],
    difference: &mut [i16],
) -> ReplyQ15
    ensures { record {
      said = says result.answer;
      sum = sum.new;
      difference = difference.new;
      pll = pll_of_q15 result.decoder;
    }
        ≡ block_of q15 (pll_of_q15 d) table.now mpx.now pilot.now
        sum.old difference.old }
{
    let answer = block_answer(
        is_fit(d),
        table.len(),
        mpx.len(),
        pilot.len(),
        sum.len(),
        difference.len(),
    );
    if answer.is_err() {
        return ReplyQ15 { answer, decoder: d };
    }
    let cosines = full_table(table);
    let decoder = run(d, cosines, mpx, pilot, sum, difference);
    ReplyQ15 { answer, decoder }
}
