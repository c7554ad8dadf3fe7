// Left and right in Q15.
ghost use Rattle.std.specs.Prelude.{◌≡◌};
ghost use Rattle.matrix.specs.Matrix.{filled_q15};
ghost use Rattle.decoder_q15.specs.Q15.{q15};
ghost use Rattle.merged.specs.Merged.{merged_of};
ghost use Rattle.c_decoder.specs.Coded.{taken_of};
ghost use Rattle.c_decoder_q15.specs.CodedQ15.{decoder_of_q15};
ghost use Rattle.c_merged.specs.Coded.{coded_merged};

use answers::answer::code_of;
use c_decoder_q15::in_q15::{DecoderQ15, ReplyQ15};
use decoder_record_q15::pll_q15::StereoPllQ15;

// A merged block, the fast way.
#[unsafe(no_mangle)]
pub extern "C" fn pescrondilu_q15_merged_block(
    d: DecoderQ15,
    table: &[i16],
    mpx: &[i16],
    pilot: &[i16],
    left: &mut [i16],
    right: &mut [i16],
) -> ReplyQ15
    ensures { record {
      answer = result.answer;
      left = left.new;
      right = right.new;
      decoder = decoder_of_q15 result.decoder;
    }
        ≡ coded_merged (merged_of q15 filled_q15 (taken_of (decoder_of_q15 d)) table.now mpx.now
        pilot.now left.old right.old) }
{
    let before = StereoPllQ15::from(d);
    let reply = merged_q15::in_q15::block(before, table, mpx, pilot, left, right);
    let said = reply.answer;
    let next = reply.decoder;
    ReplyQ15 {
        answer: code_of(said),
        decoder: DecoderQ15::from(next),
    }
}
