// A rack of two to eight Q15 decoders that have slices of their own, for a program whose receivers have
// buffers of their own.
#![tactic(auto)]

ghost use Rattle.std.specs.Prelude.{◌≡◌, map, ◌≤◌, min, length};
ghost use Rattle.answers.specs.Answer.{says};
ghost use Rattle.decoder_record_q15.specs.Records.{pll_of_q15};
ghost use Rattle.decoder_q15.specs.Q15.{q15};
ghost use Rattle.rack_waiting.specs.Agreed.{Even};
ghost use Rattle.rack_round.specs.Round.{waiting_of, turn_of};
ghost use Rattle.rack_slices_round.specs.Slices.{addresses_of, queues_at, worked_of, slices_of};

use decoder_record_q15::pll_q15::StereoPllQ15;
use rack_q15::{RoundQ15, fit_records};
use rack_waiting::{Waiting, least, round_answer, taken};

// How long the slices of each decoder are; one that is not there counts as empty.
fn lengths(
    mpx: &[&[i16]],
    pilot: &[&[i16]],
    sum: &mut [&mut [i16]],
    difference: &mut [&mut [i16]],
) -> [Waiting; 8]
    ensures { (result ≡ map waiting_of (queues_at (record {
      mpx = map (λ x. x.now) mpx.now;
      pilot = map (λ x. x.now) pilot.now;
      sum = map (λ x. x.now) sum.old;
      difference = map (λ x. x.now) difference.old;
    })))
        × (sum.new ≡ sum.old)
        × (difference.new ≡ difference.old) }
{
    let none = Waiting {
        mpx: 0,
        pilot: 0,
        sum: 0,
        difference: 0,
    };
    let mut waiting = [none; 8];
    for k in 0..8 {
        let x = if k < mpx.len() { mpx[k].len() } else { 0 };
        let p = if k < pilot.len() { pilot[k].len() } else { 0 };
        let y = if k < sum.len() { sum[k].len() } else { 0 };
        let z = if k < difference.len() {
            difference[k].len()
        } else {
            0
        };
        let w = Waiting {
            mpx: x,
            pilot: p,
            sum: y,
            difference: z,
        };
        waiting[k] = w;
    }
    waiting
}

// One decoder's turn, with slices that are equally long.
fn turn(
    d: StereoPllQ15,
    share: usize,
    table: &[i16],
    mpx: &[i16],
    pilot: &[i16],
    sum: &mut [i16],
    difference: &mut [i16],
) -> StereoPllQ15
    requires { (length pilot.now ≡ length mpx.now)
        × (length sum.old ≡ length mpx.now)
        × (length difference.old ≡ length mpx.now) }
    ensures { record {
      taken = min share (length mpx.now);
      sum = sum.new;
      difference = difference.new;
      pll = pll_of_q15 result;
    }
        ≡ turn_of q15 table.now share (pll_of_q15 d) (record {
          mpx = mpx.now;
          pilot = pilot.now;
          sum = sum.old;
          difference = difference.old;
        }) }
{
    let n = least(share, mpx.len());
    let reply = decoder_q15::fast::block(
        d,
        table,
        &mpx[0..n],
        &pilot[0..n],
        &mut sum[0..n],
        &mut difference[0..n],
    );
    reply.decoder
}

// The first decoders in order. One for which nothing waits may have no slices.
fn work(
    decoders: [StereoPllQ15; 8],
    number: usize,
    share: usize,
    waiting: [Waiting; 8],
    table: &[i16],
    mpx: &[&[i16]],
    pilot: &[&[i16]],
    sum: &mut [&mut [i16]],
    difference: &mut [&mut [i16]],
) -> [StereoPllQ15; 8]
    requires number { number ≤ 8 }
    requires even { Even number waiting }
    requires waiting { waiting ≡ map waiting_of (queues_at (record {
      mpx = map (λ x. x.now) mpx.now;
      pilot = map (λ x. x.now) pilot.now;
      sum = map (λ x. x.now) sum.old;
      difference = map (λ x. x.now) difference.old;
    })) }
    ensures { (record {
      sum = map (λ x. x.now) sum.new;
      difference = map (λ x. x.now) difference.new;
      decoders = map pll_of_q15 result;
    }
        ≡ worked_of q15 number table.now share (map pll_of_q15 decoders) (record {
          mpx = map (λ x. x.now) mpx.now;
          pilot = map (λ x. x.now) pilot.now;
          sum = map (λ x. x.now) sum.old;
          difference = map (λ x. x.now) difference.old;
        }))
        × (addresses_of sum.new ≡ addresses_of sum.old)
        × (addresses_of difference.new ≡ addresses_of difference.old) }
{
    let mut next = decoders;
    for k in 0..number {
        let w = waiting[k];
        if w.mpx > 0 {
            let d = next[k];
            let x = mpx[k];
            let p = pilot[k];
            let after = turn(d, share, table, x, p, sum[k], difference[k]);
            next[k] = after;
        }
    }
    next
}

// A round: 21, 22, or the earliest decoder's refusal, and nothing is touched; else every decoder takes its
// share, or what waits, if less.
pub fn round(
    decoders: [StereoPllQ15; 8],
    number: usize,
    allowance: u32,
    table: &[i16],
    mpx: &[&[i16]],
    pilot: &[&[i16]],
    sum: &mut [&mut [i16]],
    difference: &mut [&mut [i16]],
) -> RoundQ15
    ensures { (record {
      said = says result.answer;
      taken = result.taken;
      sum = map (λ x. x.now) sum.new;
      difference = map (λ x. x.now) difference.new;
      decoders = map pll_of_q15 result.decoders;
    }
        ≡ slices_of q15 number allowance table.now (map pll_of_q15 decoders) (record {
          mpx = map (λ x. x.now) mpx.now;
          pilot = map (λ x. x.now) pilot.now;
          sum = map (λ x. x.now) sum.old;
          difference = map (λ x. x.now) difference.old;
        }))
        × (addresses_of sum.new ≡ addresses_of sum.old)
        × (addresses_of difference.new ≡ addresses_of difference.old) }
{
    let waiting = lengths(mpx, pilot, sum, difference);
    let answer = round_answer(
        number,
        allowance,
        table.len(),
        fit_records(decoders),
        waiting,
    );
    if answer.is_err() {
        return RoundQ15 {
            answer,
            taken: [0; 8],
            decoders,
        };
    }
    let share = allowance as usize / number;
    let next = work(
        decoders, number, share, waiting, table, mpx, pilot, sum, difference,
    );
    RoundQ15 {
        answer,
        taken: taken(number, share, waiting),
        decoders: next,
    }
}
