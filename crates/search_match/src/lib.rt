// MATCH over a table's columns as they stand in a path matrix, lent. It reads the columns from right to left and is about the number that a row holds in the columns that are not left out, 0 where none is left.
// A column that is not wholly inside what is lent is Θ, so that MATCH is defined for a matrix of any size. Assumes nothing.

#![tactic(auto)]

ghost use Rattle.std.specs.Prelude.{◌≡◌, ◌-◌, ◌/◌, ◌^◌, eqb};
ghost use Rattle.rowset.specs.Columns.{width, in_columns};
ghost use Rattle.rowset.specs.Counts.{equal_right, read_within};
ghost use Rattle.rowset.specs.Searches.{equal_to};
ghost use Rattle.path_matrix.specs.Matrix.{matrix_column};
ghost use Rattle.slice.specs.Slices.{size, component};

use slice::Slice;

// The number of columns of a table.
const WIDTH: usize = 32;

// What MATCH gives: the rows that it found, and the number of columns that it read.
#[derive(Clone, Copy)]
pub struct Matched {
    pub rows: Slice,
    pub read: usize,
}

// Whether w has no digit before those of the columns that are not left out.
pub fn fits(first: usize, w: u32) -> bool
    ensures { result ≡ eqb (w / 2 ^ (width - first)) 0 }
{
    u64::from(w) >> WIDTH.saturating_sub(first) == 0
}

// MATCH of w's last digits in the columns that are not left out, from column 32 to the left; it stops where no row is left in the running.
pub fn match_right(columns: &[u64], first: usize, w: u32, x: Slice) -> Matched
    ensures rows { component result.rows ≡ equal_right (matrix_column columns.now) w (width - first) (component x) }
    ensures read { result.read ≡ read_within (width - first) size (matrix_column columns.now) w (component x) }
{
    let count = WIDTH.saturating_sub(first);
    let mut z = x;
    for k in 0..count {
        if slice::zero(z) {
            return Matched { rows: z, read: k };
        }
        z = search_columns::keep(
            z,
            path_matrix::read_column(columns, WIDTH - k),
            (w >> k) % 2 == 1,
        );
    }
    Matched {
        rows: z,
        read: count,
    }
}

// MATCH: the selected rows that equal w; none where w has a digit before those of the columns that are not left out.
pub fn match_from(columns: &[u64], first: usize, w: u32, x: Slice) -> Slice
    ensures { component result ≡ equal_to (in_columns (matrix_column columns.now) first (width - first)) w (component x) }
{
    if !fits(first, w) {
        return Slice::empty();
    }
    match_right(columns, first, w, x).rows
}
