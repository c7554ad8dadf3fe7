// The fast f32 block (fallback/stereo.rs): one scan of the pilot decides whether the test of each
// sample may be dropped, the cosine and the sine come from one index, and the correction is the
// fast one, of which those are counted that take the wide way.
#![tactic(auto)]

pub mod checked;
mod clean;

ghost use Rattle.std.specs.Prelude.{◌≡◌, length};
ghost use Rattle.answers.specs.Answer.{entries};
ghost use Rattle.counted.specs.Counted.{said_in, count_in};
ghost use Rattle.decoder.specs.Machine.{block_of};
ghost use Rattle.decoder.specs.F32.{f32};
ghost use Rattle.decoder_record.specs.Records.{pll_of_f32};
ghost use Rattle.decoder_fast.specs.Wide.{count_f32};

use crate::checked::run_checked;
use crate::clean::run_clean;
use answers::answer::{ENTRIES, Refusal};
use decoder::lengths::block_lengths;
use decoder_record::pll_f32::StereoPllF32;
use pilot_scan::scan;

// A decoder after a sample, the sample's difference output, and whether its correction took the wide way.
#[derive(Clone, Copy)]
pub struct FastStep {
    pub next: StereoPllF32,
    pub difference: f32,
    pub wide: bool,
}

// A decoder after a block's samples, and how many of their corrections took the wide way.
#[derive(Clone, Copy)]
pub(crate) struct FastRun {
    pub(crate) decoder: StereoPllF32,
    pub(crate) wide: usize,
}

// A decoder after a block, and the block's answer.
#[derive(Clone, Copy)]
pub struct FastReply {
    pub answer: Result<usize, Refusal>,
    pub decoder: StereoPllF32,
}

// The table with its length written out, so that the compiler leaves the test out of each lookup.
fn full_table(table: &[f32]) -> &[f32]
    requires { length table.now ≡ entries }
    ensures { result.now ≡ table.now }
{
    &table[..ENTRIES]
}

// A block, the fast way.
pub fn block(
    d: StereoPllF32,
    table: &[f32],
    mpx: &[f32],
    pilot: &[f32],
    sum: &mut [f32],
    difference: &mut [f32],
) -> FastReply
    ensures { (record {
      said = said_in result.answer;
      sum = sum.new;
      difference = difference.new;
      pll = pll_of_f32 result.decoder;
    }
        ≡ block_of f32 (pll_of_f32 d) table.now mpx.now pilot.now
        sum.old difference.old)
        × (count_in result.answer ≡ count_f32 (pll_of_f32 d) table.now mpx.now pilot.now
        sum.old difference.old) }
{
    let answer = block_lengths(
        table.len(),
        mpx.len(),
        pilot.len(),
        sum.len(),
        difference.len(),
    );
    if let Err(refusal) = answer {
        return FastReply {
            answer: Err(refusal),
            decoder: d,
        };
    }
    let cosines = full_table(table);
    if scan(pilot).finite {
        let r = run_clean(d, cosines, mpx, pilot, sum, difference);
        let decoder = r.decoder;
        return FastReply {
            answer: Ok(r.wide),
            decoder,
        };
    }
    let r = run_checked(d, cosines, mpx, pilot, sum, difference);
    let decoder = r.decoder;
    FastReply {
        answer: Ok(r.wide),
        decoder,
    }
}
