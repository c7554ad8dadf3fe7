// A rack of two to eight f32 decoders: a round works each of them on its share of the allowance.
#![tactic(auto)]

ghost use Rattle.std.specs.Prelude.{◌≡◌, map, ◌≤◌, replicate};
ghost use Rattle.answers.specs.Answer.{says};
ghost use Rattle.decoder_record.specs.Records.{pll_of_f32};
ghost use Rattle.decoder.specs.F32.{f32};
ghost use Rattle.rack_waiting.specs.Agreed.{Agreed};
ghost use Rattle.rack_round.specs.Round.{waiting_of};
ghost use Rattle.rack_round.specs.Flat.{queues_of, worked_of, flat_of};
ghost use Rattle.rack_round.specs.Wide.{turn_wide, round_wide};
ghost use Rattle.rack_waiting.specs.Beside.{beside, over};

use answers::answer::Refusal;
use counted::wide_of;
use decoder_record::pll_f32::StereoPllF32;
use rack_waiting::{Waiting, least, parts, round_answer, taken};

// What a round answers, how many samples each decoder took, how many of its corrections took the wide
// way, and the decoders after it.
#[derive(Clone, Copy)]
pub struct RoundF32 {
    pub answer: Result<(), Refusal>,
    pub taken: [usize; 8],
    pub wide: [usize; 8],
    pub decoders: [StereoPllF32; 8],
}

// The decoders after their turns, and how many corrections of each took the wide way.
#[derive(Clone, Copy)]
struct WorkF32 {
    decoders: [StereoPllF32; 8],
    wide: [usize; 8],
}

// The first decoders in order, each on its own part.
fn work(
    decoders: [StereoPllF32; 8],
    number: usize,
    share: usize,
    parts: [Waiting; 8],
    table: &[f32],
    mpx: &[f32],
    pilot: &[f32],
    sum: &mut [f32],
    difference: &mut [f32],
) -> WorkF32
    requires number { number ≤ 8 }
    requires agreed { Agreed number parts (waiting_of (record {
      mpx = mpx.now;
      pilot = pilot.now;
      sum = sum.old;
      difference = difference.old;
    })) }
    ensures leaves { record {
      sum = sum.new;
      difference = difference.new;
      decoders = map pll_of_f32 result.decoders;
    }
        ≡ worked_of f32 number table.now share (map pll_of_f32 decoders) parts (record {
          mpx = mpx.now;
          pilot = pilot.now;
          sum = sum.old;
          difference = difference.old;
        }) }
    ensures wide { result.wide ≡ over (beside (turn_wide table.now share) number (map pll_of_f32 decoders)
        (queues_of parts (record {
          mpx = mpx.now;
          pilot = pilot.now;
          sum = sum.old;
          difference = difference.old;
        }))) (replicate 8 0) }
{
    let mut next = decoders;
    let mut wide = [0usize; 8];
    let mut a = 0usize;
    for k in 0..number {
        let w = parts[k];
        let e = a + least(share, w.mpx);
        let d = next[k];
        let reply = decoder_fast::block(
            d,
            table,
            &mpx[a..e],
            &pilot[a..e],
            &mut sum[a..e],
            &mut difference[a..e],
        );
        let after = reply.decoder;
        next[k] = after;
        let answer = reply.answer;
        wide[k] = wide_of(answer);
        a += w.mpx;
    }
    WorkF32 {
        decoders: next,
        wide,
    }
}

// A round: 21, 22, or the earliest decoder's refusal, and nothing is touched; else every decoder takes its
// share, or what waits, if less.
pub fn round(
    decoders: [StereoPllF32; 8],
    number: usize,
    allowance: u32,
    waiting: [Waiting; 8],
    table: &[f32],
    mpx: &[f32],
    pilot: &[f32],
    sum: &mut [f32],
    difference: &mut [f32],
) -> RoundF32
    ensures leaves { record {
      said = says result.answer;
      taken = result.taken;
      sum = sum.new;
      difference = difference.new;
      decoders = map pll_of_f32 result.decoders;
    }
        ≡ flat_of f32 number allowance table.now (map pll_of_f32 decoders) waiting (record {
          mpx = mpx.now;
          pilot = pilot.now;
          sum = sum.old;
          difference = difference.old;
        }) }
    ensures wide { result.wide ≡ round_wide number allowance table.now (map pll_of_f32 decoders)
        (queues_of waiting (record {
          mpx = mpx.now;
          pilot = pilot.now;
          sum = sum.old;
          difference = difference.old;
        })) }
{
    let cut = parts(
        waiting,
        Waiting {
            mpx: mpx.len(),
            pilot: pilot.len(),
            sum: sum.len(),
            difference: difference.len(),
        },
    );
    let answer = round_answer(number, allowance, table.len(), [true; 8], cut);
    if answer.is_err() {
        return RoundF32 {
            answer,
            taken: [0; 8],
            wide: [0; 8],
            decoders,
        };
    }
    let share = allowance as usize / number;
    let worked = work(
        decoders, number, share, cut, table, mpx, pilot, sum, difference,
    );
    let wide = worked.wide;
    let next = worked.decoders;
    RoundF32 {
        answer,
        taken: taken(number, share, cut),
        wide,
        decoders: next,
    }
}
