// What waits for the decoders of a rack, by its lengths, the same in both formats: the parts of the flat
// slices, the answer of a round, and how many samples each decoder takes.
#![tactic(auto)]

ghost use Rattle.std.specs.Prelude.{◌≡◌, map, ◌-◌, ◌≤◌, min};
ghost use Rattle.answers.specs.Answer.{says, first_cause};
ghost use Rattle.rack_waiting.specs.Beside.{beside};
ghost use Rattle.rack_waiting.specs.Waiting.{part_of, rest_of, parts_of, cause_of, round_says, taken_of};

use answers::answer::Refusal;
use decoder_q15::parts::block_answer;

// The most decoders of a rack.
pub const PLACES: usize = 8;

// How long a decoder's part of each of the four flat slices is.
#[repr(C)]
#[derive(Clone, Copy)]
pub struct Waiting {
    pub mpx: usize,
    pub pilot: usize,
    pub sum: usize,
    pub difference: usize,
}

// The smaller of two.
pub fn least(a: usize, b: usize) -> usize
    ensures { result ≡ min a b }
{
    if a < b { a } else { b }
}

// a less b, and 0 where b is larger.
fn less(a: usize, b: usize) -> usize
    ensures { result ≡ a - b }
{
    if b < a { a - b } else { 0 }
}

// A decoder's part of what is left, cut off at its end.
fn part(w: Waiting, left: Waiting) -> Waiting
    ensures { result ≡ part_of w left }
{
    Waiting {
        mpx: least(w.mpx, left.mpx),
        pilot: least(w.pilot, left.pilot),
        sum: least(w.sum, left.sum),
        difference: least(w.difference, left.difference),
    }
}

// What is left after it.
fn rest(w: Waiting, left: Waiting) -> Waiting
    ensures { result ≡ rest_of w left }
{
    Waiting {
        mpx: less(left.mpx, w.mpx),
        pilot: less(left.pilot, w.pilot),
        sum: less(left.sum, w.sum),
        difference: less(left.difference, w.difference),
    }
}

// The parts of slices with these whole lengths, each from where the one before ends.
pub fn parts(waiting: [Waiting; 8], whole: Waiting) -> [Waiting; 8]
    ensures { result ≡ parts_of waiting whole }
{
    let mut cut = waiting;
    let mut left = whole;
    for k in 0..8 {
        let w = waiting[k];
        cut[k] = part(w, left);
        left = rest(w, left);
    }
    cut
}

// The earliest decoder's refusal.
fn earliest(
    number: usize,
    table: usize,
    fits: [bool; 8],
    waiting: [Waiting; 8],
) -> Result<(), Refusal>
    requires { number ≤ 8 }
    ensures { says result ≡ first_cause (beside (cause_of table) number fits waiting) }
{
    for k in 0..number {
        let w = waiting[k];
        block_answer(fits[k], table, w.mpx, w.pilot, w.sum, w.difference)?;
    }
    Ok(())
}

// A round's answer: 21, then 22, then the earliest decoder's refusal, by the lengths of what waits.
pub fn round_answer(
    number: usize,
    allowance: u32,
    table: usize,
    fits: [bool; 8],
    waiting: [Waiting; 8],
) -> Result<(), Refusal>
    ensures { says result ≡ round_says number allowance table fits waiting }
{
    if number < 2 {
        return Err(Refusal::Number);
    }
    if number > PLACES {
        return Err(Refusal::Number);
    }
    if (allowance as usize) < number {
        return Err(Refusal::Allowance);
    }
    earliest(number, table, fits, waiting)
}

// How many samples each decoder takes: its share, or what waits, if less; 0 past the number.
pub fn taken(number: usize, share: usize, waiting: [Waiting; 8]) -> [usize; 8]
    ensures { result ≡ taken_of number share waiting }
{
    let mut counts = [0usize; 8];
    let n = least(number, PLACES);
    for k in 0..n {
        let w = waiting[k];
        counts[k] = least(share, w.mpx);
    }
    counts
}
