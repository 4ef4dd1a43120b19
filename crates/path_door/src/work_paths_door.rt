// MatrixPath over a working table for C.
ghost use Rattle.std.specs.Prelude.{◌≡◌};
ghost use Rattle.path_meaning.specs.Bytes.{PathsCall};
ghost use Rattle.star_spec.specs.Call.{work_of};
ghost use Rattle.star_spec.specs.Door.{door_returns, paths_door, paths_door_matrix};

use crate::paths_door::answered;
use in_use::InUse;

// MatrixPath over the rows in use, through the door: the matrix is filled where nothing is refused, and stays as it is otherwise.
// `means` says what the bytes and the matrix are worth: the rows on the way from s to each vertex.
#[unsafe(no_mangle)]
pub extern "C" fn star_work_paths(
    n: u32,
    words: &[u64],
    left: &[u8],
    right: &[u8],
    weight: &[u8],
    mark: &[u8],
    s: u32,
    matrix: &mut [u64],
    answer: &mut [u8],
) -> u32
    ensures returned { result ≡ door_returns answer.old }
    ensures answered { let c = work_of n words.now left.now right.now weight.now mark.now in
        answer.new ≡ paths_door c s matrix.old answer.old }
    ensures filled { let c = work_of n words.now left.now right.now weight.now mark.now in
        matrix.new ≡ paths_door_matrix c s matrix.old answer.old }
    ensures means { let c = work_of n words.now left.now right.now weight.now mark.now in
        PathsCall c s matrix.old answer.old answer.new matrix.new result }
{
    let working = InUse::working(words);
    answered(n, working, left, right, weight, mark, s, matrix, answer)
}
