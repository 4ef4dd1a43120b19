// The path matrix after an exchange of two rows of a tree: where row e goes out and row f comes in, each column that has e is turned over by the ring, the path of f with f itself.
// One matrix so serves a procedure that makes many exchanges, and is never filled anew.

#![tactic(auto)]

ghost use Rattle.std.specs.Prelude.{◌≡◌};
ghost use Rattle.path_matrix.specs.Matrix.{matrix_column};
ghost use Rattle.rowset.specs.Bytes.{in_row};
ghost use Rattle.rowset.specs.Sets.{one_of};
ghost use Rattle.slice.specs.Slices.{component};
ghost use Rattle.path_exchange.specs.Turned.{column_turned, columns_turned};

use slice::Slice;
use table_checks::row_byte;

// The rows on the tree path between row i's ends, from the path matrix.
pub fn path_of(matrix: &[u64], left: &[u8], right: &[u8], i: usize) -> Slice
    ensures { component result ≡ one_of (matrix_column matrix.now (in_row 1 left.now i)) (matrix_column matrix.now (in_row 1 right.now i)) }
{
    let a = row_byte(left, i) as usize;
    let b = row_byte(right, i) as usize;
    slice::xor(
        path_matrix::read_column(matrix, a),
        path_matrix::read_column(matrix, b),
    )
}

// Column j, turned over by the ring where it has row e; any other column stays.
pub fn turn_column(matrix: &mut [u64], j: usize, e: usize, ring: Slice)
    ensures { matrix.new ≡ column_turned matrix.old j e (component ring) }
{
    if search_columns::bit_at(matrix, j, e) {
        let x = path_matrix::read_column(matrix, j);
        path_matrix::write_column(matrix, j, slice::xor(x, ring));
    }
}

// Columns 1 to n, each turned over by the ring where it has row e.
pub fn turn_columns(matrix: &mut [u64], n: usize, e: usize, ring: Slice)
    ensures { matrix.new ≡ columns_turned matrix.old n e (component ring) }
{
    for j in 0..n {
        turn_column(matrix, j + 1, e, ring);
    }
}
