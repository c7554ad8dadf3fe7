// A rack of two to eight f32 decoders that have slices of their own, for a program whose receivers have
// buffers of their own.
#![tactic(auto)]

ghost use Rattle.std.specs.Prelude.{◌≡◌, map, ◌≤◌, min, length, replicate};
ghost use Rattle.answers.specs.Answer.{says};
ghost use Rattle.decoder_record.specs.Records.{pll_of_f32};
ghost use Rattle.decoder.specs.F32.{f32};
ghost use Rattle.rack_waiting.specs.Agreed.{Even};
ghost use Rattle.rack_waiting.specs.Beside.{beside, over};
ghost use Rattle.rack_round.specs.Round.{waiting_of, turn_of};
ghost use Rattle.rack_round.specs.Wide.{turn_wide, round_wide};
ghost use Rattle.rack_slices_round.specs.Slices.{addresses_of, queues_at, worked_of, slices_of};

use counted::wide_of;
use decoder_record::pll_f32::StereoPllF32;
use rack::RoundF32;
use rack_waiting::{Waiting, least, round_answer, taken};

// How long the slices of each decoder are; one that is not there counts as empty.
fn lengths(
    mpx: &[&[f32]],
    pilot: &[&[f32]],
    sum: &mut [&mut [f32]],
    difference: &mut [&mut [f32]],
) -> [Waiting; 8]
    ensures { (result ≡ map waiting_of (queues_at (record {
      mpx = map (λ x. x.now) mpx.now;
      pilot = map (λ x. x.now) pilot.now;
      sum = map (λ x. x.now) sum.old;
      difference = map (λ x. x.now) difference.old;
    })))
        × (sum.new ≡ sum.old)
        × (difference.new ≡ difference.old) }
{
    let none = Waiting {
        mpx: 0,
        pilot: 0,
        sum: 0,
        difference: 0,
    };
    let mut waiting = [none; 8];
    for k in 0..8 {
        let x = if k < mpx.len() { mpx[k].len() } else { 0 };
        let p = if k < pilot.len() { pilot[k].len() } else { 0 };
        let y = if k < sum.len() { sum[k].len() } else { 0 };
        let z = if k < difference.len() {
            difference[k].len()
        } else {
            0
        };
        let w = Waiting {
            mpx: x,
            pilot: p,
            sum: y,
            difference: z,
        };
        waiting[k] = w;
    }
    waiting
}

// A decoder after its turn, and how many of its corrections took the wide way.
#[derive(Clone, Copy)]
struct TurnF32 {
    decoder: StereoPllF32,
    wide: usize,
}

// The decoders after their turns, and how many corrections of each took the wide way.
#[derive(Clone, Copy)]
struct WorkF32 {
    decoders: [StereoPllF32; 8],
    wide: [usize; 8],
}

// One decoder's turn, with slices that are equally long.
fn turn(
    d: StereoPllF32,
    share: usize,
    table: &[f32],
    mpx: &[f32],
    pilot: &[f32],
    sum: &mut [f32],
    difference: &mut [f32],
) -> TurnF32
    requires { (length pilot.now ≡ length mpx.now)
        × (length sum.old ≡ length mpx.now)
        × (length difference.old ≡ length mpx.now) }
    ensures leaves { record {
      taken = min share (length mpx.now);
      sum = sum.new;
      difference = difference.new;
      pll = pll_of_f32 result.decoder;
    }
        ≡ turn_of f32 table.now share (pll_of_f32 d) (record {
          mpx = mpx.now;
          pilot = pilot.now;
          sum = sum.old;
          difference = difference.old;
        }) }
    ensures wide { result.wide ≡ turn_wide table.now share (pll_of_f32 d) (record {
      mpx = mpx.now;
      pilot = pilot.now;
      sum = sum.old;
      difference = difference.old;
    }) }
{
    let n = least(share, mpx.len());
    let reply = decoder_fast::block(
        d,
        table,
        &mpx[0..n],
        &pilot[0..n],
        &mut sum[0..n],
        &mut difference[0..n],
    );
    let decoder = reply.decoder;
    let answer = reply.answer;
    TurnF32 {
        decoder,
        wide: wide_of(answer),
    }
}

// The first decoders in order. One for which nothing waits may have no slices.
fn work(
    decoders: [StereoPllF32; 8],
    number: usize,
    share: usize,
    waiting: [Waiting; 8],
    table: &[f32],
    mpx: &[&[f32]],
    pilot: &[&[f32]],
    sum: &mut [&mut [f32]],
    difference: &mut [&mut [f32]],
) -> WorkF32
    requires number { number ≤ 8 }
    requires even { Even number waiting }
    requires waiting { waiting ≡ map waiting_of (queues_at (record {
      mpx = map (λ x. x.now) mpx.now;
      pilot = map (λ x. x.now) pilot.now;
      sum = map (λ x. x.now) sum.old;
      difference = map (λ x. x.now) difference.old;
    })) }
    ensures leaves { (record {
      sum = map (λ x. x.now) sum.new;
      difference = map (λ x. x.now) difference.new;
      decoders = map pll_of_f32 result.decoders;
    }
        ≡ worked_of f32 number table.now share (map pll_of_f32 decoders) (record {
          mpx = map (λ x. x.now) mpx.now;
          pilot = map (λ x. x.now) pilot.now;
          sum = map (λ x. x.now) sum.old;
          difference = map (λ x. x.now) difference.old;
        }))
        × (addresses_of sum.new ≡ addresses_of sum.old)
        × (addresses_of difference.new ≡ addresses_of difference.old) }
    ensures wide { result.wide ≡ over (beside (turn_wide table.now share) number (map pll_of_f32 decoders)
        (queues_at (record {
          mpx = map (λ x. x.now) mpx.now;
          pilot = map (λ x. x.now) pilot.now;
          sum = map (λ x. x.now) sum.old;
          difference = map (λ x. x.now) difference.old;
        }))) (replicate 8 0) }
{
    let mut next = decoders;
    let mut wide = [0usize; 8];
    for k in 0..number {
        let w = waiting[k];
        if w.mpx > 0 {
            let d = next[k];
            let x = mpx[k];
            let p = pilot[k];
            let turned = turn(d, share, table, x, p, sum[k], difference[k]);
            let after = turned.decoder;
            next[k] = after;
            wide[k] = turned.wide;
        }
    }
    WorkF32 {
        decoders: next,
        wide,
    }
}

// A round: 21, 22, or the earliest decoder's refusal, and nothing is touched; else every decoder takes its
// share, or what waits, if less.
pub fn round(
    decoders: [StereoPllF32; 8],
    number: usize,
    allowance: u32,
    table: &[f32],
    mpx: &[&[f32]],
    pilot: &[&[f32]],
    sum: &mut [&mut [f32]],
    difference: &mut [&mut [f32]],
) -> RoundF32
    ensures leaves { (record {
      said = says result.answer;
      taken = result.taken;
      sum = map (λ x. x.now) sum.new;
      difference = map (λ x. x.now) difference.new;
      decoders = map pll_of_f32 result.decoders;
    }
        ≡ slices_of f32 number allowance table.now (map pll_of_f32 decoders) (record {
          mpx = map (λ x. x.now) mpx.now;
          pilot = map (λ x. x.now) pilot.now;
          sum = map (λ x. x.now) sum.old;
          difference = map (λ x. x.now) difference.old;
        }))
        × (addresses_of sum.new ≡ addresses_of sum.old)
        × (addresses_of difference.new ≡ addresses_of difference.old) }
    ensures wide { result.wide ≡ round_wide number allowance table.now (map pll_of_f32 decoders)
        (queues_at (record {
          mpx = map (λ x. x.now) mpx.now;
          pilot = map (λ x. x.now) pilot.now;
          sum = map (λ x. x.now) sum.old;
          difference = map (λ x. x.now) difference.old;
        })) }
{
    let waiting = lengths(mpx, pilot, sum, difference);
    let answer = round_answer(number, allowance, table.len(), [true; 8], waiting);
    if answer.is_err() {
        return RoundF32 {
            answer,
            taken: [0; 8],
            wide: [0; 8],
            decoders,
        };
    }
    let share = allowance as usize / number;
    let worked = work(
        decoders, number, share, waiting, table, mpx, pilot, sum, difference,
    );
    let wide = worked.wide;
    let next = worked.decoders;
    RoundF32 {
        answer,
        taken: taken(number, share, waiting),
        wide,
        decoders: next,
    }
}
