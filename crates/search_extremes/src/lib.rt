// MIN and MAX over a table's columns as they stand in a path matrix, lent. They read the columns from left to right, without the first ones, as many as they are told, and are about the integer that the others stand for in two's complement: the first column that is read is that of the sign.
// A column that is not wholly inside what is lent is Θ, so that both are defined for a matrix of any size. Assumes nothing.

#![tactic(auto)]

ghost use Rattle.std.specs.Prelude.{◌≡◌, true, not, cond, ◌+◌, ◌-◌, ◌*◌, ◌≤◌, eqb, length};
ghost use Rattle.rowset.specs.Sets.{any};
ghost use Rattle.rowset.specs.Columns.{width, in_columns};
ghost use Rattle.rowset.specs.Integers.{integer_in};
ghost use Rattle.rowset.specs.Searches.{smallest, largest};
ghost use Rattle.path_matrix.specs.Matrix.{matrix_column};
ghost use Rattle.slice.specs.Slices.{size, component};
ghost use Rattle.search_columns.specs.Steps.Column.{kept, turned};
ghost use Rattle.search_columns.specs.Steps.Rows.{rows_of, NonePast};
ghost use Rattle.search_extremes.specs.Steps.Column.{preferred, extreme, AtMostOne};

use slice::Slice;

// The number of columns of a table, and the words of a column.
const WIDTH: usize = 32;

const COLUMN: usize = 16;

// The rows of z whose bit in column j + 1 is b, all its words joined: 0 where there is no such row.
fn joined_rows(z: &[u64], columns: &[u64], j: usize, b: bool, used: usize) -> u64
    requires { (length z.now ≡ 16) × (16 * (j + 1) ≤ length columns.now) × (used ≤ 16) × NonePast used (rows_of z.now) }
    ensures { not (eqb result 0) ≡ any size (kept b (rows_of z.now) (matrix_column columns.now (j + 1))) }
{
    let mask = search_columns::mask_of(b);
    let from = COLUMN * j;
    let mut joined: u64 = 0;
    for k in 0..used {
        joined |= z[k] & (columns[from + k] ^ mask);
    }
    joined
}

// Whether z has a single row: one word that is not 0, with one bit.
fn single(z: &[u64], used: usize) -> bool
    requires { (length z.now ≡ 16) × (used ≤ 16) × NonePast used (rows_of z.now) }
    ensures { result ≡ true → AtMostOne (rows_of z.now) }
{
    let mut found: u64 = 0;
    for k in 0..used {
        let w = z[k];
        if w != 0 {
            if found != 0 {
                return false;
            }
            found = w;
        }
    }
    found.is_power_of_two()
}

// Of the rows of z those whose bit in column j + 1 is b stay, or all where there is no such row. True where a single row is left.
fn prefer_rows(z: &mut [u64], columns: &[u64], j: usize, b: bool, used: usize) -> bool
    requires { (length z.old ≡ 16) × (used ≤ 16) × NonePast used (rows_of z.old) }
    ensures rows { rows_of z.new ≡ preferred size b (rows_of z.old) (matrix_column columns.now (j + 1)) }
    ensures last { result ≡ true → AtMostOne (rows_of z.new) }
{
    if columns.len() / COLUMN <= j {
        return false;
    }
    let joined = joined_rows(z, columns, j, b, used);
    if joined == 0 {
        return false;
    }
    search_columns::keep_rows(z, columns, j, b, used);
    joined.is_power_of_two() && single(z, used)
}

// The bit of column j + 1 that a row has that comes first: the other one in the first column that is read, that of the sign.
fn wanted(first: usize, high: bool, j: usize) -> bool
    ensures { result ≡ cond (eqb j first) (not high) high }
{
    if j == first { !high } else { high }
}

// MAX where `high` is true and MIN where it is not. It stops where a single row is left.
fn extreme_from(columns: &[u64], first: usize, high: bool, x: Slice) -> Slice
    ensures { component result ≡ extreme high size (in_columns (turned first (matrix_column columns.now)) first (width - first)) (component x) }
{
    let mut z = x;
    let used = search_columns::words_used(&z.words);
    for j in first..WIDTH {
        let b = wanted(first, high, j);
        if prefer_rows(&mut z.words, columns, j, b, used) {
            return z;
        }
    }
    z
}

// MIN: the selected rows than which no selected row is smaller.
pub fn min_from(columns: &[u64], first: usize, x: Slice) -> Slice
    ensures { component result ≡ smallest size (integer_in (matrix_column columns.now) first (width - first)) (component x) }
{
    extreme_from(columns, first, false, x)
}

// MAX: the selected rows than which no selected row is larger.
pub fn max_from(columns: &[u64], first: usize, x: Slice) -> Slice
    ensures { component result ≡ largest size (integer_in (matrix_column columns.now) first (width - first)) (component x) }
{
    extreme_from(columns, first, true, x)
}
