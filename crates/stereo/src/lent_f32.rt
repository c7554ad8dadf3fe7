// The F32 decoder, lent and changed by the block (`&mut StereoPllState` in stereo.rs).
ghost use Rattle.std.specs.Prelude.{◌≡◌};
ghost use Rattle.counted.specs.Counted.{said_in, count_in};
ghost use Rattle.decoder.specs.Machine.{block_of};
ghost use Rattle.decoder.specs.F32.{f32};
ghost use Rattle.decoder_record.specs.Records.{pll_of_f32};
ghost use Rattle.decoder_fast.specs.Wide.{count_f32};

use answers::answer::Refusal;
use decoder_record::pll_f32::StereoPllF32;

// A block, the fast way.
pub fn block(
    d: &mut StereoPllF32,
    table: &[f32],
    mpx: &[f32],
    pilot: &[f32],
    sum: &mut [f32],
    difference: &mut [f32],
) -> Result<usize, Refusal>
    ensures { (record {
      said = said_in result;
      sum = sum.new;
      difference = difference.new;
      pll = pll_of_f32 d.new;
    }
        ≡ block_of f32 (pll_of_f32 d.old) table.now mpx.now pilot.now
        sum.old difference.old)
        × (count_in result ≡ count_f32 (pll_of_f32 d.old) table.now mpx.now pilot.now
        sum.old difference.old) }
{
    let o = decoder_fast::block(*d, table, mpx, pilot, sum, difference);
    *d = o.decoder;
    o.answer
}
