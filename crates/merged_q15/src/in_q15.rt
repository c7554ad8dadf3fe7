// Left and right in Q15.
ghost use Rattle.std.specs.Prelude.{◌≡◌, length};
ghost use Rattle.answers.specs.Answer.{says, accepted};
ghost use Rattle.matrix.specs.Matrix.{filled_q15};
ghost use Rattle.decoder_q15.specs.Q15.{q15};
ghost use Rattle.decoder_record_q15.specs.Records.{pll_of_q15};
ghost use Rattle.merged.specs.Merged.{merged_of};

use counted::answer_of;
use decoder_q15::parts::ReplyQ15;
use decoder_record_q15::pll_q15::StereoPllQ15;
use merged::generic::merged;

// A merged block, the fast way.
pub fn block(
    d: StereoPllQ15,
    table: &[i16],
    mpx: &[i16],
    pilot: &[i16],
    left: &mut [i16],
    right: &mut [i16],
) -> ReplyQ15
    ensures { record {
      said = says result.answer;
      left = left.new;
      right = right.new;
      pll = pll_of_q15 result.decoder;
    }
        ≡ merged_of q15 filled_q15 (pll_of_q15 d) table.now mpx.now pilot.now
        left.old right.old }
{
    let reply = merged(d, table, mpx, pilot, left, right);
    ReplyQ15 {
        answer: answer_of(reply.answer),
        decoder: reply.decoder,
    }
}
