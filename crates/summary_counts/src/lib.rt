// The counts of a summary, the same in both formats.
#![tactic(auto)]

ghost use Rattle.std.specs.Prelude.{◌≡◌, true};
ghost use Rattle.answers.specs.Answer.{says};
ghost use Rattle.summary_counts.specs.Counts.{
  fresh_counts,
  held_of,
  counted_of,
  wrapped,
  full_of,
  emptied,
  ending_of,
  counts_fit,
  places_of,
  call_says,
};

use answers::answer::{Refusal, output_rule};

// The samples of a period, what is held of an unfinished one, and the decision of the sample before.
#[derive(Clone, Copy)]
pub struct Counts {
    pub period: u32,
    pub stereo: u32,
    pub mono: u32,
    pub changes: u32,
    pub before: bool,
}

pub fn fresh(period: u32) -> Counts
    ensures { result ≡ fresh_counts period }
{
    Counts {
        period,
        stereo: 0,
        mono: 0,
        changes: 0,
        before: false,
    }
}

// The samples held; a u64, since two counts filled in by hand may pass a u32.
pub fn held(c: Counts) -> u64
    ensures { result ≡ held_of c }
{
    (c.stereo as u64) + (c.mono as u64)
}

pub fn is_fit(c: Counts) -> bool
    ensures { result ≡ counts_fit c }
{
    let n = held(c);
    (c.period != 0) & (n < (c.period as u64)) & ((c.changes as u64) <= n)
}

// One sample more. Of counts that are fit nothing wraps.
pub fn counted(c: Counts, stereo: bool) -> Counts
    ensures wrapped { result ≡ wrapped (counted_of c stereo) }
    ensures exact { (counts_fit c ≡ true → result ≡ counted_of c stereo) }
{
    let s = u32::from(stereo);
    let m = u32::from(!stereo);
    let change = u32::from(c.before != stereo);
    Counts {
        period: c.period,
        stereo: std::num::wrapping_add_u32(c.stereo, s),
        mono: std::num::wrapping_add_u32(c.mono, m),
        changes: std::num::wrapping_add_u32(c.changes, change),
        before: stereo,
    }
}

pub fn is_full(c: Counts) -> bool
    ensures { result ≡ full_of c }
{
    held(c) == (c.period as u64)
}

pub fn empty(c: Counts) -> Counts
    ensures { result ≡ emptied c }
{
    Counts {
        period: c.period,
        stereo: 0,
        mono: 0,
        changes: 0,
        before: c.before,
    }
}

// How many periods end within n samples more, or 0 for counts that are not fit: the first one ends with
// the sample that fills what is held. Most blocks end none, and need no division.
pub fn ending(c: Counts, n: usize) -> usize
    ensures { result ≡ places_of c n }
{
    if !is_fit(c) {
        return 0;
    }
    let p = c.period as usize;
    let room = p - (held(c) as usize);
    if n < room {
        return 0;
    }
    1 + (n - room) / p
}

// What a call with a summary answers: 20 where the summary is not fit, then what the block answers, then
// the lengths of the four columns in order.
pub fn summary_answer(
    fit: bool,
    c: Counts,
    block: Result<(), Refusal>,
    n: usize,
    stereo: usize,
    mono: usize,
    changes: usize,
    magnitude: usize,
) -> Result<(), Refusal>
    ensures { says result ≡ call_says fit c (says block) n stereo mono changes magnitude }
{
    if !fit {
        return Err(Refusal::Summary);
    }
    block?;
    let places = ending(c, n);
    output_rule(places, stereo)?;
    output_rule(places, mono)?;
    output_rule(places, changes)?;
    output_rule(places, magnitude)
}
