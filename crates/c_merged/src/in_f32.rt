// Left and right in f32.
ghost use Rattle.std.specs.Prelude.{◌≡◌};
ghost use Rattle.matrix.specs.Matrix.{filled_f32};
ghost use Rattle.decoder.specs.F32.{f32};
ghost use Rattle.counted.specs.Counted.{number_in};
ghost use Rattle.decoder_fast.specs.Wide.{count_f32};
ghost use Rattle.merged.specs.Merged.{merged_of};
ghost use Rattle.c_decoder.specs.Coded.{decoder_of_f32, taken_of};
ghost use Rattle.c_merged.specs.Coded.{coded_merged};

use answers::answer::code_of;
use c_decoder::in_f32::{CountedF32, DecoderF32};
use counted::{answer_of, wide_of};
use decoder_record::pll_f32::StereoPllF32;

// A merged block, the fast way.
#[unsafe(no_mangle)]
pub extern "C" fn pescrondilu_f32_merged_block(
    d: DecoderF32,
    table: &[f32],
    mpx: &[f32],
    pilot: &[f32],
    left: &mut [f32],
    right: &mut [f32],
) -> CountedF32
    ensures leaves { record {
      answer = result.answer;
      left = left.new;
      right = right.new;
      decoder = decoder_of_f32 result.decoder;
    }
        ≡ coded_merged (merged_of f32 filled_f32 (taken_of (decoder_of_f32 d)) table.now mpx.now
        pilot.now left.old right.old) }
    ensures wide { result.wide ≡ number_in (count_f32 (taken_of (decoder_of_f32 d)) table.now mpx.now
        pilot.now left.old right.old) }
{
    let before = StereoPllF32::from(d);
    let reply = merged::in_f32::block(before, table, mpx, pilot, left, right);
    let said = reply.answer;
    let next = reply.decoder;
    CountedF32 {
        answer: code_of(answer_of(said)),
        wide: wide_of(said),
        decoder: DecoderF32::from(next),
    }
}
