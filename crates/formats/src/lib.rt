// The decoders of both formats, as the calls above a block use them.
#![tactic(auto)]

ghost use Rattle.std.specs.Prelude.{◌≡◌, Bool, false};
ghost use Rattle.phase.specs.Correction.{is_wide};
ghost use Rattle.answers.specs.Answer.{says};
ghost use Rattle.counted.specs.Counted.{said_in, count_in, carried};
ghost use Rattle.decoder_record.specs.State.{Pll};
ghost use Rattle.decoder.specs.Machine.{Arithmetic, block_of};
ghost use Rattle.decoder.specs.F32.{f32};
ghost use Rattle.decoder_record.specs.Records.{pll_of_f32};
ghost use Rattle.decoder_fast.specs.Wide.{block_count};
ghost use Rattle.decoder_record_q15.specs.Records.{pll_of_q15};
ghost use Rattle.decoder_q15.specs.Q15.{q15};

use answers::answer::Refusal;
use decoder_record::pll_f32::StereoPllF32;
use decoder_record_q15::pll_q15::StereoPllQ15;
use matrix::matrix::Sample;

// A decoder after a block, and the block's answer: how many corrections took the wide way, none in Q15.
#[derive(Clone, Copy)]
pub struct Reply<D> {
    pub answer: Result<usize, Refusal>,
    pub decoder: D,
}

pub trait Decoder: Copy {
    type Sample: Sample;

    // The machine's arithmetic, which f takes the wide way, and the record as the machine's state.
    ghost arithmetic: { Arithmetic Self.Sample };

    ghost wide: { Self.Sample → Bool };

    ghost state: { Self → Pll Self.Sample };

    // A block, the fast way.
    fn block(
        self,
        table: &[Self::Sample],
        mpx: &[Self::Sample],
        pilot: &[Self::Sample],
        sum: &mut [Self::Sample],
        difference: &mut [Self::Sample],
    ) -> Reply<Self>
        ensures leaves { record {
          said = said_in result.answer;
          sum = sum.new;
          difference = difference.new;
          pll = state result.decoder;
        }
            ≡ block_of arithmetic (state self) table.now mpx.now pilot.now sum.old difference.old }
        ensures count { count_in result.answer
            ≡ block_count arithmetic wide (state self) table.now mpx.now pilot.now sum.old difference.old };
}

impl Decoder for StereoPllF32 {
    type Sample = f32;

    ghost arithmetic = { f32 };

    ghost wide = { is_wide };

    ghost state = { pll_of_f32 };

    fn block(
        self,
        table: &[f32],
        mpx: &[f32],
        pilot: &[f32],
        sum: &mut [f32],
        difference: &mut [f32],
    ) -> Reply<StereoPllF32> {
        let reply = decoder_fast::block(self, table, mpx, pilot, sum, difference);
        Reply {
            answer: reply.answer,
            decoder: reply.decoder,
        }
    }
}

// A Q15 block's answer: its corrections have no wide way.
fn uncounted(answer: Result<(), Refusal>) -> Result<usize, Refusal>
    ensures said { said_in result ≡ says answer }
    ensures count { count_in result ≡ carried (says answer) 0 }
{
    answer?;
    Ok(0)
}

impl Decoder for StereoPllQ15 {
    type Sample = i16;

    ghost arithmetic = { q15 };

    ghost wide = { λ f. false };

    ghost state = { pll_of_q15 };

    fn block(
        self,
        table: &[i16],
        mpx: &[i16],
        pilot: &[i16],
        sum: &mut [i16],
        difference: &mut [i16],
    ) -> Reply<StereoPllQ15> {
        let reply = decoder_q15::fast::block(self, table, mpx, pilot, sum, difference);
        Reply {
            answer: uncounted(reply.answer),
            decoder: reply.decoder,
        }
    }
}
