// Columns of the path matrix, a lent slice of words, sixteen a column: component i of column j is bit (i - 1) % 64 of word 16 (j - 1) + (i - 1) / 64.
// Columns are counted from 1. A column that is not wholly inside the matrix reads Θ, and writing it changes nothing.

#![tactic(auto)]

ghost use Rattle.std.specs.Prelude.{◌≡◌, ◌≤◌, ◌*◌, true, length};
ghost use Rattle.slice.specs.Slices.{component, written};
ghost use Rattle.path_matrix.specs.Matrix.{has_column, matrix_column, with_column};

use slice::{BITS, SIZE, Slice, WORDS};

// Whether there is a column j.
fn has_column(matrix: &[u64], j: usize) -> bool
    ensures value { result ≡ has_column matrix.now j }
    ensures inside { result ≡ true → (1 ≤ j) × (16 * j ≤ length matrix.now) }
{
    1 <= j && j <= matrix.len() / WORDS
}

// Column j as a slice.
pub fn read_column(matrix: &[u64], j: usize) -> Slice
    ensures { component result ≡ matrix_column matrix.now j }
{
    let mut r = Slice::empty();
    if has_column(matrix, j) {
        let from = WORDS * (j - 1);
        r.words.copy_from_slice(&matrix[from..from + WORDS]);
    }
    r
}

// The matrix with x as column j.
pub fn write_column(matrix: &mut [u64], j: usize, x: Slice)
    ensures { matrix.new ≡ with_column matrix.old j (component x) }
{
    if has_column(matrix, j) {
        let to = WORDS * (j - 1);
        matrix[to..to + WORDS].copy_from_slice(&x.words);
    }
}

// The matrix with component i of column j set to 1. Where there is no such column or component nothing changes.
pub fn put_component(matrix: &mut [u64], j: usize, i: usize)
    ensures { matrix.new ≡ with_column matrix.old j (written (matrix_column matrix.old j) i true) }
{
    if !has_column(matrix, j) || i < 1 || SIZE < i {
        return;
    }
    let k = i - 1;
    matrix[WORDS * (j - 1) + k / BITS] |= 1 << (k % BITS);
}
