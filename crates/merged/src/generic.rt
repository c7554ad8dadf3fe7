// Left and right from one call, in either format.
ghost use Rattle.std.specs.Prelude.{◌≡◌, length};
ghost use Rattle.answers.specs.Answer.{accepted};
ghost use Rattle.counted.specs.Counted.{said_in, count_in};
ghost use Rattle.matrix.specs.Matrix.{filled_by};
ghost use Rattle.decoder_fast.specs.Wide.{block_count};
ghost use Rattle.merged.specs.Merged.{merged_of};

use formats::{Decoder, Reply};
use matrix::matrix::Sample;

// Sum and difference become left and right, where they lie, so that no buffer is needed.
fn matrix_in_place<S: Sample>(left: &mut [S], right: &mut [S])
    requires { length right.old ≡ length left.old }
    ensures { record { said = accepted; left = left.new; right = right.new }
        ≡ filled_by S.left_of S.right_of S.past left.old right.old }
{
    for i in 0..left.len() {
        let s = left[i];
        let d = right[i];
        left[i] = S::left(s, d);
        right[i] = S::right(s, d);
    }
}

// A merged block, the fast way.
pub fn merged<D: Decoder>(
    d: D,
    table: &[D::Sample],
    mpx: &[D::Sample],
    pilot: &[D::Sample],
    left: &mut [D::Sample],
    right: &mut [D::Sample],
) -> Reply<D>
    ensures leaves { record {
      said = said_in result.answer;
      left = left.new;
      right = right.new;
      pll = D.state result.decoder;
    }
        ≡ merged_of D.arithmetic
        (filled_by D.Sample.left_of D.Sample.right_of D.Sample.past)
        (D.state d) table.now mpx.now pilot.now left.old right.old }
    ensures count { count_in result.answer
        ≡ block_count D.arithmetic D.wide (D.state d) table.now mpx.now pilot.now left.old right.old }
{
    let reply = d.block(table, mpx, pilot, left, right);
    if reply.answer.is_err() {
        return reply;
    }
    matrix_in_place(left, right);
    reply
}
