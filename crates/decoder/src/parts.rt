// What the f32 blocks share.
ghost use Rattle.std.specs.Prelude.{◌≡◌, length};
ghost use Rattle.answers.specs.Answer.{entries};
ghost use Rattle.decoder_record.specs.State.{moved_to};
ghost use Rattle.decoder_parts.specs.Rules.{phase_after};
ghost use Rattle.decoder_record.specs.Records.{pll_of_f32};

use answers::answer::{ENTRIES, Refusal};
use decoder_parts::advance::phase_after;
use decoder_record::pll_f32::StereoPllF32;

// A decoder after a sample, and the sample's difference output.
#[derive(Clone, Copy)]
pub struct StepF32 {
    pub next: StereoPllF32,
    pub difference: f32,
}

// A decoder after a block, and the block's answer.
#[derive(Clone, Copy)]
pub struct ReplyF32 {
    pub answer: Result<(), Refusal>,
    pub decoder: StereoPllF32,
}

// The table with its length written out, so that the compiler leaves the test out of each lookup.
pub(crate) fn full_table(table: &[f32]) -> &[f32]
    requires { length table.now ≡ entries }
    ensures { result.now ≡ table.now }
{
    &table[..ENTRIES]
}

// The decoder after a sample that has this correction, integrator, level and decision.
pub fn advanced(
    mut d: StereoPllF32,
    correction: u32,
    integ: f32,
    level: f32,
    stereo: bool,
) -> StereoPllF32
    ensures { pll_of_f32 result
        ≡ moved_to (pll_of_f32 d) (record { phase = phase_after d.phase d.step0 correction; integ = integ; level = level; stereo = stereo }) }
{
    d.phase = phase_after(d.phase, d.step0, correction);
    d.integ = integ;
    d.level = level;
    d.stereo = stereo;
    d
}
