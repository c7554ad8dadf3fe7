// A rack of two to eight Q15 decoders: a round works each of them on its share of the allowance.
#![tactic(auto)]

ghost use Rattle.std.specs.Prelude.{◌≡◌, map, ◌≤◌};
ghost use Rattle.answers.specs.Answer.{says};
ghost use Rattle.decoder_record_q15.specs.Records.{pll_of_q15};
ghost use Rattle.decoder_record_q15.specs.Fit.{fit_q15};
ghost use Rattle.decoder_q15.specs.Q15.{q15};
ghost use Rattle.rack_waiting.specs.Agreed.{Agreed};
ghost use Rattle.rack_round.specs.Round.{waiting_of};
ghost use Rattle.rack_round.specs.Flat.{worked_of, flat_of};

use answers::answer::Refusal;
use decoder_fit_q15::fit::is_fit;
use decoder_record_q15::pll_q15::StereoPllQ15;
use rack_waiting::{Waiting, least, parts, round_answer, taken};

// What a round answers, how many samples each decoder took, and the decoders after it.
#[derive(Clone, Copy)]
pub struct RoundQ15 {
    pub answer: Result<(), Refusal>,
    pub taken: [usize; 8],
    pub decoders: [StereoPllQ15; 8],
}

// Which records are fit.
pub fn fit_records(decoders: [StereoPllQ15; 8]) -> [bool; 8]
    ensures { result ≡ map fit_q15 (map pll_of_q15 decoders) }
{
    let mut fit = [false; 8];
    for k in 0..8 {
        let d = decoders[k];
        fit[k] = is_fit(d);
    }
    fit
}

// The first decoders in order, each on its own part.
fn work(
    decoders: [StereoPllQ15; 8],
    number: usize,
    share: usize,
    parts: [Waiting; 8],
    table: &[i16],
    mpx: &[i16],
    pilot: &[i16],
    sum: &mut [i16],
    difference: &mut [i16],
) -> [StereoPllQ15; 8]
    requires number { number ≤ 8 }
    requires agreed { Agreed number parts (waiting_of (record {
      mpx = mpx.now;
      pilot = pilot.now;
      sum = sum.old;
      difference = difference.old;
    })) }
    ensures { record {
      sum = sum.new;
      difference = difference.new;
      decoders = map pll_of_q15 result;
    }
        ≡ worked_of q15 number table.now share (map pll_of_q15 decoders) parts (record {
          mpx = mpx.now;
          pilot = pilot.now;
          sum = sum.old;
          difference = difference.old;
        }) }
{
    let mut next = decoders;
    let mut a = 0usize;
    for k in 0..number {
        let w = parts[k];
        let e = a + least(share, w.mpx);
        let d = next[k];
        let reply = decoder_q15::fast::block(
            d,
            table,
            &mpx[a..e],
            &pilot[a..e],
            &mut sum[a..e],
            &mut difference[a..e],
        );
        let after = reply.decoder;
        next[k] = after;
        a += w.mpx;
    }
    next
}

// A round: 21, 22, or the earliest decoder's refusal, and nothing is touched; else every decoder takes its
// share, or what waits, if less.
pub fn round(
    decoders: [StereoPllQ15; 8],
    number: usize,
    allowance: u32,
    waiting: [Waiting; 8],
    table: &[i16],
    mpx: &[i16],
    pilot: &[i16],
    sum: &mut [i16],
    difference: &mut [i16],
) -> RoundQ15
    ensures { record {
      said = says result.answer;
      taken = result.taken;
      sum = sum.new;
      difference = difference.new;
      decoders = map pll_of_q15 result.decoders;
    }
        ≡ flat_of q15 number allowance table.now (map pll_of_q15 decoders) waiting (record {
          mpx = mpx.now;
          pilot = pilot.now;
          sum = sum.old;
          difference = difference.old;
        }) }
{
    let cut = parts(
        waiting,
        Waiting {
            mpx: mpx.len(),
            pilot: pilot.len(),
            sum: sum.len(),
            difference: difference.len(),
        },
    );
    let answer = round_answer(number, allowance, table.len(), fit_records(decoders), cut);
    if answer.is_err() {
        return RoundQ15 {
            answer,
            taken: [0; 8],
            decoders,
        };
    }
    let share = allowance as usize / number;
    let next = work(
        decoders, number, share, cut, table, mpx, pilot, sum, difference,
    );
    RoundQ15 {
        answer,
        taken: taken(number, share, cut),
        decoders: next,
    }
}
