// What the Q15 loops share. Some parts ask for the bounds that a fit record gives; no sum or product
// then passes an i64.
ghost use Rattle.std.specs.Prelude.{◌≡◌, length, true, ◌∷◌, ◌+◌, ◌*◌, ◌≤◌, ◌<◌, ◌^◌, nat_abs, ◌+ℤ◌, ◌*ℤ◌, T};
ghost use Rattle.std.specs.Int.Signed.{non_neg, le_z};
ghost use Rattle.numbers.specs.Integers.{round_shift_of};
ghost use Rattle.answers.specs.Answer.{entries, says, rule, first_cause};
ghost use Rattle.decoder_parts.specs.Rules.{decide_q15};
ghost use Rattle.decoder.specs.Machine.{limited, advanced_by, length_causes};
ghost use Rattle.decoder_record_q15.specs.Fit.{level_fit, guard_of, fit_q15};
ghost use Rattle.decoder_q15.specs.Q15.{q15, level_q15};
ghost use Rattle.decoder_record_q15.specs.Records.{pll_of_q15};

use answers::answer::{ENTRIES, Refusal};
use decoder::lengths::block_lengths;
use decoder_parts::advance::phase_after;
use decoder_parts_q15::in_q15::decided;
use decoder_record_q15::pll_q15::StereoPllQ15;
use numbers::fixed::{low32, round_shift};

// A decoder after a sample, and the sample's difference output.
#[derive(Clone, Copy)]
pub struct StepQ15 {
    pub next: StereoPllQ15,
    pub difference: i16,
}

// A decoder after a block, and the block's answer.
#[derive(Clone, Copy)]
pub struct ReplyQ15 {
    pub answer: Result<(), Refusal>,
    pub decoder: StereoPllQ15,
}

// The table with its length written out, so that the compiler leaves the test out of each lookup.
pub(crate) fn full_table(table: &[i16]) -> &[i16]
    requires { length table.now ≡ entries }
    ensures { result.now ≡ table.now }
{
    &table[..ENTRIES]
}

// Within -imax..=imax; a negative imax is not fit, and -imax passes the largest i64 at the
// smallest one.
pub(crate) fn within(imax: i64, x: i64) -> i64
    requires { T (non_neg imax) }
    ensures { result ≡ limited q15 imax x }
{
    let y = if x > imax { imax } else { x };
    if y < -imax { -imax } else { y }
}

// offset + gain * e, for an error of at most 2^30 in size.
pub(crate) fn scaled_sum(gain: i64, e: i64, offset: i64) -> i64
    requires error { nat_abs e ≤ 2 ^ 30 }
    requires fits { nat_abs gain * 2 ^ 30 + nat_abs offset < 2 ^ 63 }
    ensures { result ≡ gain *ℤ e +ℤ offset }
{
    gain * e + offset
}

// The level after a sample, from the level rounded to 31 places.
pub(crate) fn level_after(beta: i64, level: i64, q: i64, rounded: i64) -> i64
    requires level { level_fit beta level ≡ true }
    requires product { nat_abs q ≤ 2 ^ 30 }
    requires rounded { rounded ≡ round_shift_of level 31 }
    ensures { result ≡ level_q15 beta level q }
{
    level + beta * (q - rounded)
}

// A sum rounded to 32 places, stopping at the largest i64. Where `largest`, which the sum does not
// pass, leaves room for the half, nothing has to stop; as it is the same for each sample of a block,
// the test does not lengthen a loop's chain.
pub(crate) fn rounded(f: i64, largest: i64) -> i64
    requires { le_z f largest ≡ true }
    ensures { result ≡ round_shift_of f 32 }
{
    if largest > 9223372034707292159 {
        return round_shift(f, 32);
    }
    (f + 2147483648) >> 32
}

// The decoder after a sample whose error is e and whose level is `level`; `gathered` is the
// integrator with the sample's part, before its limit, and `largest` as in `rounded`.
pub(crate) fn advanced(
    mut d: StereoPllQ15,
    e: i64,
    gathered: i64,
    largest: i64,
    level: i64,
) -> StereoPllQ15
    requires fit { fit_q15 (pll_of_q15 d) ≡ true }
    requires error { nat_abs e ≤ 2 ^ 30 }
    requires gathered { gathered ≡ d.ki *ℤ e +ℤ d.integ }
    requires largest { le_z (guard_of d.kp d.imax) largest ≡ true }
    ensures { pll_of_q15 result ≡ advanced_by q15 (pll_of_q15 d) e level (decide_q15 level d.on d.off d.stereo) }
{
    let integ = within(d.imax, gathered);
    let correction = low32(rounded(scaled_sum(d.kp, e, integ), largest));
    d.phase = phase_after(d.phase, d.step0, correction);
    d.integ = integ;
    d.level = level;
    d.stereo = decided(level, d.on, d.off, d.stereo);
    d
}

// Cause 0 before them; `fit` says whether a Q15 block takes the record.
pub fn block_answer(
    fit: bool,
    table: usize,
    mpx: usize,
    pilot: usize,
    sum: usize,
    difference: usize,
) -> Result<(), Refusal>
    ensures { says result ≡ first_cause (rule 0 fit ∷ length_causes table mpx pilot sum difference) }
{
    if !fit {
        return Err(Refusal::Unfit);
    }
    block_lengths(table, mpx, pilot, sum, difference)
}
