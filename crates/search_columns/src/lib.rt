// A table's columns as they stand in a path matrix, lent: a caller that searches often lends the columns and copies no table. Here are a table's columns as words, one component of them, and what the loops of the searches share: rows in the running, in place as words or as a slice, narrowed at a column. The searches are in crates `search_match`, `search_great` and `search_extremes`.
// A column that is not wholly inside what is lent is Θ, so that every function is defined for a matrix of any size. Assumes nothing.

#![tactic(auto)]

ghost use Rattle.std.specs.Prelude.{◌≡◌, ℕ, ◌≤◌, get_or};
ghost use Rattle.path_matrix.specs.Matrix.{matrix_column};
ghost use Rattle.slice.specs.Slices.{component};
ghost use Rattle.table.specs.Tables.{column};
ghost use Rattle.search_columns.specs.Steps.Column.{kept};
ghost use Rattle.search_columns.specs.Steps.Rows.{rows_of, NonePast, words_used, mask, narrowed};

use slice::Slice;
use table::Table;

// The number of columns of a table, the words of a column and of a table, and the bits of a word.
const WIDTH: usize = 32;

const COLUMN: usize = 16;

const ALL: usize = 512;

const BITS: usize = 64;

// A table's columns, one after the other.
#[derive(Clone, Copy)]
pub struct Stored {
    pub columns: [u64; ALL],
}

// The columns of a table, to be lent.
pub fn columns_of(t: Table) -> Stored
    ensures { matrix_column result.columns ≡ column t }
{
    let mut columns = [0u64; ALL];
    for j in 0..WIDTH {
        path_matrix::write_column(&mut columns, j + 1, t.columns[j]);
    }
    Stored { columns }
}

// Component i of column j.
pub fn bit_at(columns: &[u64], j: usize, i: usize) -> bool
    ensures { result ≡ matrix_column columns.now j i }
{
    if j < 1 {
        return false;
    }
    if columns.len() / COLUMN < j {
        return false;
    }
    if i < 1 {
        return false;
    }
    if slice::SIZE < i {
        return false;
    }
    let k = i - 1;
    let w = columns[COLUMN * (j - 1) + k / BITS];
    (w >> (k % BITS)) % 2 == 1
}

// The rows of z whose bit in the column c is b.
pub fn keep(z: Slice, c: Slice, b: bool) -> Slice
    ensures { component result ≡ kept b (component z) (component c) }
{
    if b {
        slice::and(z, c)
    } else {
        slice::difference::without(z, c)
    }
}

// How many words of z are read: past them z has no row. A multiple of four, so that a loop over them is compiled without a rest.
pub fn words_used(z: &[u64; COLUMN]) -> usize
    ensures { (result ≤ 16) × NonePast result (rows_of z.now) × (result ≡ words_used z.now) }
{
    for k in (0..COLUMN).rev() {
        if z[k] != 0 {
            return (k + 1).next_multiple_of(4);
        }
    }
    0
}

// The word that turns a column over, bit by bit, where the rows sought have 0 in it.
pub fn mask_of(b: bool) -> u64
    ensures { result ≡ mask b }
{
    if b { 0 } else { u64::MAX }
}

// Of the rows of z in its first words, as many as `used` says, only those whose bit in column j + 1 is b stay. Where there is no such column nothing changes.
pub fn keep_rows(z: &mut [u64], columns: &[u64], j: usize, b: bool, used: usize)
    ensures rows { rows_of z.new ≡ narrowed columns.now j b used (rows_of z.old) }
    ensures past { (p : ℕ) → 16 ≤ p → get_or z.new p 0 ≡ get_or z.old p 0 }
{
    if columns.len() / COLUMN <= j {
        return;
    }
    let mask = mask_of(b);
    let from = COLUMN * j;
    let words = used.min(z.len()).min(COLUMN);
    for k in 0..words {
        z[k] &= columns[from + k] ^ mask;
    }
}
