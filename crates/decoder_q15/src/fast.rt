// The fast Q15 block (fallback/stereo.rs): the table sums in 32 bits, the integrator's product with
// the cosine last, and the level's rounding without the stop that a fit level never reaches. The
// correction's rounding stops at the largest i64, as the plain one does, in a record whose gains let
// it come there.
ghost use Rattle.std.specs.Prelude.{◌≡◌, true, ◌+◌, ◌*◌, ◌≤◌, ◌<◌, ◌^◌, length, pos, nat_abs, ◌+ℤ◌, ◌*ℤ◌};
ghost use Rattle.std.specs.Int.Signed.{le_z};
ghost use Rattle.numbers.specs.Integers.{sat16_of, round_shift_of};
ghost use Rattle.answers.specs.Answer.{says, accepted};
ghost use Rattle.decoder.specs.Machine.{step_of, run_of, block_of};
ghost use Rattle.decoder_record_q15.specs.Fit.{level_fit, fit_q15};
ghost use Rattle.decoder_q15.specs.Q15.{q15, level_q15, step_if_fit};
ghost use Rattle.decoder_record_q15.specs.Records.{pll_of_q15};

use crate::parts::{
    ReplyQ15, StepQ15, advanced, block_answer, full_table, level_after, scaled_sum,
};
use decoder_fit_q15::fit::is_fit;
use decoder_parts_q15::in_q15::selected;
use decoder_record_q15::pll_q15::StereoPllQ15;
use lookup::lookup::{sine_at, sine_at_twice};
use lookup_q15::in_q15::interp_q15;

// The level after a sample.
fn level_next(beta: i64, level: i64, q: i64) -> i64
    requires level { level_fit beta level ≡ true }
    requires product { nat_abs q ≤ 2 ^ 30 }
    ensures { result ≡ level_q15 beta level q }
{
    level_after(beta, level, q, (level + 1073741824) >> 31)
}

// The exact product of a sample and a table value, which lies within an i16. It is worked out in 32
// bits: in 64 the compiler would take it in the place of `gathered`'s first product.
fn product(a: i16, b: i32) -> i64
    requires { nat_abs b ≤ 2 ^ 15 }
    ensures { result ≡ a *ℤ b }
{
    ((a as i32) * b) as i64
}

// The integrator with a sample's part: ki times p does not wait for the cosine c.
fn gathered(ki: i64, p: i16, c: i32, integ: i64) -> i64
    requires cosine { nat_abs c ≤ 2 ^ 15 }
    requires gain { le_z (pos 0) ki ≡ true }
    requires fits { nat_abs ki * 2 ^ 30 + nat_abs integ < 2 ^ 63 }
    ensures { result ≡ ki *ℤ (p *ℤ c) +ℤ integ }
{
    ki * (p as i64) * (c as i64) + integ
}

// The demodulated sample, rounded in 32 bits and limited.
fn demodulated(x: i16, s2: i32) -> i16
    requires { nat_abs s2 ≤ 2 ^ 15 }
    ensures { result ≡ sat16_of (round_shift_of (x *ℤ s2) 15) }
{
    let y = ((x as i32) * s2 + 16384) >> 15;
    if y > 32767 {
        return 32767;
    }
    y as i16
}

// One sample of a fit decoder.
fn step(table: &[i16], d: StereoPllQ15, x: i16, p: i16) -> StepQ15
    requires { fit_q15 (pll_of_q15 d) ≡ true }
    ensures { record { sum = x; difference = result.difference; pll = pll_of_q15 result.next }
        ≡ step_of q15 table.now (pll_of_q15 d) x p }
{
    let c = interp_q15(table, d.phase);
    let s = interp_q15(table, sine_at(d.phase));
    let s2 = interp_q15(table, sine_at_twice(d.phase));
    let level = level_next(d.beta, d.level, product(p, s));
    let largest = scaled_sum(d.kp, 1073741824, d.imax);
    let next = advanced(
        d,
        product(p, c),
        gathered(d.ki, p, c, d.integ),
        largest,
        level,
    );
    StepQ15 {
        next,
        difference: selected(next.stereo & next.enabled, demodulated(x, s2)),
    }
}

// One sample of a decoder that may be unfit, which then stays as it is.
pub fn step_checked(table: &[i16], d: StereoPllQ15, x: i16, p: i16) -> StepQ15
    ensures { record { sum = x; difference = result.difference; pll = pll_of_q15 result.next }
        ≡ step_if_fit table.now (pll_of_q15 d) x p }
{
    if is_fit(d) {
        return step(table, d, x, p);
    }
    StepQ15 {
        next: d,
        difference: 0,
    }
}

// The samples in order.
fn run(
    d: StereoPllQ15,
    table: &[i16],
    mpx: &[i16],
    pilot: &[i16],
    sum: &mut [i16],
    difference: &mut [i16],
) -> StereoPllQ15
    requires { (length pilot.now ≡ length mpx.now)
        × (length sum.old ≡ length mpx.now)
        × (length difference.old ≡ length mpx.now) × (fit_q15 (pll_of_q15 d) ≡ true) }
    ensures { record { said = accepted; sum = sum.new; difference = difference.new; pll = pll_of_q15 result }
        ≡ run_of q15 (pll_of_q15 d) table.now mpx.now pilot.now }
{
    let mut st = d;
    for i in 0..mpx.len() {
        let x = mpx[i];
        let p = pilot[i];
        let o = step(table, st, x, p);
        sum[i] = x;
        let y = o.difference;
        difference[i] = y;
        st = o.next;
    }
    st
}

// A block, the fast way.
pub fn block(
    d: StereoPllQ15,
    table: &[i16],
    mpx: &[i16],
    pilot: &[i16],
    sum: &mut [i16],
    difference: &mut [i16],
) -> ReplyQ15
    ensures { record {
      said = says result.answer;
      sum = sum.new;
      difference = difference.new;
      pll = pll_of_q15 result.decoder;
    }
        ≡ block_of q15 (pll_of_q15 d) table.now mpx.now pilot.now
        sum.old difference.old }
{
    let answer = block_answer(
        is_fit(d),
        table.len(),
        mpx.len(),
        pilot.len(),
        sum.len(),
        difference.len(),
    );
    if answer.is_err() {
        return ReplyQ15 { answer, decoder: d };
    }
    let cosines = full_table(table);
    let decoder = run(d, cosines, mpx, pilot, sum, difference);
    ReplyQ15 { answer, decoder }
}
