// The answer of a decoder's block by its lengths.
ghost use Rattle.std.specs.Prelude.{◌≡◌};
ghost use Rattle.answers.specs.Answer.{says, first_cause};
ghost use Rattle.decoder.specs.Machine.{length_causes};

use answers::answer::{Refusal, inputs_rule, output_rule};

// The causes 9, 10 and 11 in order; an f32 block has no other.
pub fn block_lengths(
    table: usize,
    mpx: usize,
    pilot: usize,
    sum: usize,
    difference: usize,
) -> Result<(), Refusal>
    ensures { says result ≡ first_cause (length_causes table mpx pilot sum difference) }
{
    inputs_rule(table, mpx, pilot)?;
    output_rule(mpx, sum)?;
    output_rule(mpx, difference)
}
