// The Q15 decoder, lent and changed by the block (`&mut StereoPllState` in stereo.rs).
ghost use Rattle.std.specs.Prelude.{◌≡◌};
ghost use Rattle.answers.specs.Answer.{says};
ghost use Rattle.decoder.specs.Machine.{block_of};
ghost use Rattle.decoder_q15.specs.Q15.{q15};
ghost use Rattle.decoder_record_q15.specs.Records.{pll_of_q15};

use answers::answer::Refusal;
use decoder_record_q15::pll_q15::StereoPllQ15;

// A block, the fast way.
pub fn block(
    d: &mut StereoPllQ15,
    table: &[i16],
    mpx: &[i16],
    pilot: &[i16],
    sum: &mut [i16],
    difference: &mut [i16],
) -> Result<(), Refusal>
    ensures { record {
      said = says result;
      sum = sum.new;
      difference = difference.new;
      pll = pll_of_q15 d.new;
    }
        ≡ block_of q15 (pll_of_q15 d.old) table.now mpx.now pilot.now
        sum.old difference.old }
{
    let o = decoder_q15::fast::block(*d, table, mpx, pilot, sum, difference);
    *d = o.decoder;
    o.answer
}
