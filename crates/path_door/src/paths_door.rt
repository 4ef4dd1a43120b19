// MatrixPath for C.
ghost use Rattle.std.specs.Prelude.{◌≡◌};
ghost use Rattle.in_use.specs.Tables.{table_in};
ghost use Rattle.path_meaning.specs.Bytes.{PathsCall};
ghost use Rattle.star_spec.specs.Call.{call_of};
ghost use Rattle.star_spec.specs.Door.{door_returns, paths_door, paths_door_matrix};

use answer::{of_outcome, well_lent, write_answer};
use in_use::InUse;

// MatrixPath over a table of either kind, in the lent matrix and the lent answer.
pub(crate) fn answered(
    n: u32,
    table: InUse,
    left: &[u8],
    right: &[u8],
    weight: &[u8],
    mark: &[u8],
    s: u32,
    matrix: &mut [u64],
    answer: &mut [u8],
) -> u32
    ensures returned { result ≡ door_returns answer.old }
    ensures answered { let c = table_in n table left.now right.now weight.now mark.now in
        answer.new ≡ paths_door c s matrix.old answer.old }
    ensures filled { let c = table_in n table left.now right.now weight.now mark.now in
        matrix.new ≡ paths_door_matrix c s matrix.old answer.old }
    ensures means { let c = table_in n table left.now right.now weight.now mark.now in
        PathsCall c s matrix.old answer.old answer.new matrix.new result }
{
    if !well_lent(answer) {
        return 0;
    }
    let o = path::matrix_path(n, table, left, right, weight, mark, s, matrix);
    let x = of_outcome(o);
    write_answer(answer, x);
    1
}

// MatrixPath through the door: the matrix is filled where nothing is refused, and stays as it is otherwise.
// `means` says what the bytes and the matrix are worth: the rows on the way from s to each vertex.
#[unsafe(no_mangle)]
pub extern "C" fn star_paths(
    n: u32,
    left: &[u8],
    right: &[u8],
    weight: &[u8],
    mark: &[u8],
    s: u32,
    matrix: &mut [u64],
    answer: &mut [u8],
) -> u32
    ensures returned { result ≡ door_returns answer.old }
    ensures answered { let c = call_of n left.now right.now weight.now mark.now in
        answer.new ≡ paths_door c s matrix.old answer.old }
    ensures filled { let c = call_of n left.now right.now weight.now mark.now in
        matrix.new ≡ paths_door_matrix c s matrix.old answer.old }
    ensures means { let c = call_of n left.now right.now weight.now mark.now in
        PathsCall c s matrix.old answer.old answer.new matrix.new result }
{
    let plain = InUse::plain(left.len());
    answered(n, plain, left, right, weight, mark, s, matrix, answer)
}
