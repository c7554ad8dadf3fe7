// Sum and difference to left and right (ITU-R BS.450). The difference is taken twice, since the
// demodulator halves it.
ghost use Rattle.std.specs.Prelude.{◌≡◌, length, pos};
ghost use Rattle.std.specs.Float.{nan};
ghost use Rattle.answers.specs.Answer.{says, accepted};
ghost use Rattle.matrix.specs.Matrix.{
  matrix_says,
  left_q15,
  right_q15,
  left_f32,
  right_f32,
  filled_by,
  matrix_by,
  matrix_f32,
  matrix_q15,
};

use answers::answer::{Refusal, input_rule, output_rule};
use numbers::fixed::{q15_add_sat, q15_sub_sat};

// The answer by the lengths.
fn matrix_lengths(sum: usize, difference: usize, left: usize, right: usize) -> Result<(), Refusal>
    ensures { says result ≡ matrix_says sum difference left right }
{
    input_rule(sum, difference)?;
    output_rule(sum, left)?;
    output_rule(sum, right)
}

// A sample of a format: what the matrix makes of a sum and a difference.
pub trait Sample: Copy {
    ghost left_of: { Self → Self → Self };

    ghost right_of: { Self → Self → Self };

    // Stands for a sample past the end, of which none is read.
    ghost past: { Self };

    fn left(sum: Self, difference: Self) -> Self
        ensures { result ≡ left_of sum difference };

    fn right(sum: Self, difference: Self) -> Self
        ensures { result ≡ right_of sum difference };
}

impl Sample for f32 {
    ghost left_of = { left_f32 };

    ghost right_of = { right_f32 };

    ghost past = { nan };

    fn left(sum: f32, difference: f32) -> f32 {
        sum + (difference + difference)
    }

    fn right(sum: f32, difference: f32) -> f32 {
        sum - (difference + difference)
    }
}

// One sample of the left channel. Limiting after each step leaves what limiting s + 2d once would
// (proofs/Twice.antt), and compiles to one instruction a step for eight samples.
pub fn left_q15(s: i16, d: i16) -> i16
    ensures { result ≡ left_q15 s d }
{
    q15_add_sat(q15_add_sat(s, d), d)
}

// One sample of the right channel.
pub fn right_q15(s: i16, d: i16) -> i16
    ensures { result ≡ right_q15 s d }
{
    q15_sub_sat(q15_sub_sat(s, d), d)
}

impl Sample for i16 {
    ghost left_of = { left_q15 };

    ghost right_of = { right_q15 };

    ghost past = { pos 0 };

    fn left(sum: i16, difference: i16) -> i16 {
        left_q15(sum, difference)
    }

    fn right(sum: i16, difference: i16) -> i16 {
        right_q15(sum, difference)
    }
}

fn fill<S: Sample>(sum: &[S], difference: &[S], left: &mut [S], right: &mut [S])
    requires { (length difference.now ≡ length sum.now)
        × (length left.old ≡ length sum.now)
        × (length right.old ≡ length sum.now) }
    ensures { record { said = accepted; left = left.new; right = right.new }
        ≡ filled_by S.left_of S.right_of S.past sum.now difference.now }
{
    for i in 0..sum.len() {
        let s = sum[i];
        let d = difference[i];
        left[i] = S::left(s, d);
        right[i] = S::right(s, d);
    }
}

// The matrix in either format.
pub fn matrix<S: Sample>(
    sum: &[S],
    difference: &[S],
    left: &mut [S],
    right: &mut [S],
) -> Result<(), Refusal>
    ensures { record { said = says result; left = left.new; right = right.new }
        ≡ matrix_by S.left_of S.right_of S.past sum.now difference.now left.old right.old }
{
    matrix_lengths(sum.len(), difference.len(), left.len(), right.len())?;
    fill(sum, difference, left, right);
    Ok(())
}

pub fn matrix_f32(
    sum: &[f32],
    difference: &[f32],
    left: &mut [f32],
    right: &mut [f32],
) -> Result<(), Refusal>
    ensures { record { said = says result; left = left.new; right = right.new }
        ≡ matrix_f32 sum.now difference.now left.old right.old }
{
    matrix(sum, difference, left, right)
}

pub fn matrix_q15(
    sum: &[i16],
    difference: &[i16],
    left: &mut [i16],
    right: &mut [i16],
) -> Result<(), Refusal>
    ensures { record { said = says result; left = left.new; right = right.new }
        ≡ matrix_q15 sum.now difference.now left.old right.old }
{
    matrix(sum, difference, left, right)
}
