// The matrix in both formats.
ghost use Rattle.std.specs.Prelude.{◌≡◌};
ghost use Rattle.matrix.specs.Matrix.{matrix_f32, matrix_q15};
ghost use Rattle.c_matrix.specs.CodedMatrix.{coded_matrix};

use answers::answer::{Code, code_of};

#[unsafe(no_mangle)]
pub extern "C" fn pescrondilu_matrix_f32(
    sum: &[f32],
    difference: &[f32],
    left: &mut [f32],
    right: &mut [f32],
) -> Code
    ensures { record { answer = result; left = left.new; right = right.new }
        ≡ coded_matrix (matrix_f32 sum.now difference.now left.old right.old) }
{
    code_of(matrix::matrix::matrix_f32(sum, difference, left, right))
}

#[unsafe(no_mangle)]
pub extern "C" fn pescrondilu_matrix_q15(
    sum: &[i16],
    difference: &[i16],
    left: &mut [i16],
    right: &mut [i16],
) -> Code
    ensures { record { answer = result; left = left.new; right = right.new }
        ≡ coded_matrix (matrix_q15 sum.now difference.now left.old right.old) }
{
    code_of(matrix::matrix::matrix_q15(sum, difference, left, right))
}
