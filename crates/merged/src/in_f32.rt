// Left and right in f32.
ghost use Rattle.std.specs.Prelude.{◌≡◌, length};
ghost use Rattle.answers.specs.Answer.{accepted};
ghost use Rattle.counted.specs.Counted.{said_in, count_in};
ghost use Rattle.matrix.specs.Matrix.{filled_f32};
ghost use Rattle.decoder.specs.F32.{f32};
ghost use Rattle.decoder_record.specs.Records.{pll_of_f32};
ghost use Rattle.decoder_fast.specs.Wide.{count_f32};
ghost use Rattle.merged.specs.Merged.{merged_of};

use crate::generic::merged;
use decoder_fast::FastReply;
use decoder_record::pll_f32::StereoPllF32;

// A merged block, the fast way.
pub fn block(
    d: StereoPllF32,
    table: &[f32],
    mpx: &[f32],
    pilot: &[f32],
    left: &mut [f32],
    right: &mut [f32],
) -> FastReply
    ensures leaves { record {
      said = said_in result.answer;
      left = left.new;
      right = right.new;
      pll = pll_of_f32 result.decoder;
    }
        ≡ merged_of f32 filled_f32 (pll_of_f32 d) table.now mpx.now pilot.now
        left.old right.old }
    ensures count { count_in result.answer ≡ count_f32 (pll_of_f32 d) table.now mpx.now pilot.now
        left.old right.old }
{
    let reply = merged(d, table, mpx, pilot, left, right);
    FastReply {
        answer: reply.answer,
        decoder: reply.decoder,
    }
}
