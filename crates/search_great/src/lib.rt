// GREAT over a table's columns as they stand in a path matrix, lent. It reads the columns from left to right, without the first ones, as many as it is told, and is about the integer that the others stand for in two's complement: the first column that is read is that of the sign.
// A column that is not wholly inside what is lent is Θ, so that GREAT is defined for a matrix of any size. Assumes nothing.

#![tactic(auto)]

ghost use Rattle.std.specs.Prelude.{◌≡◌, true, ◌+◌, ◌-◌, ◌*◌, ◌<◌, ◌≤◌, length};
ghost use Rattle.rowset.specs.Sets.{either};
ghost use Rattle.rowset.specs.Columns.{width};
ghost use Rattle.rowset.specs.Integers.{from_bits, integer_in};
ghost use Rattle.rowset.specs.Searches.{greater_than, same_as};
ghost use Rattle.path_matrix.specs.Matrix.{matrix_column};
ghost use Rattle.slice.specs.Slices.{component};
ghost use Rattle.search_columns.specs.Steps.Column.{kept, turned};
ghost use Rattle.search_columns.specs.Steps.Rows.{rows_of, NonePast};
ghost use Rattle.search_great.specs.Steps.Column.{grown, turned_bits};

use slice::Slice;

// The number of columns of a table, and the words of a column and of a table.
const WIDTH: usize = 32;

const COLUMN: usize = 16;

const ALL: usize = 512;

// What GREAT gives: the rows that are greater than the number compared with, and those that equal it.
#[derive(Clone, Copy)]
pub struct Compared {
    pub greater: Slice,
    pub equal: Slice,
}

// Column j + 1 of those that are compared: the first that is read is turned over, since a 1 there is the sign of a negative number.
fn ordered(columns: &[u64], first: usize, j: usize) -> Slice
    requires { j < 32 }
    ensures { component result ≡ turned first (matrix_column columns.now) (j + 1) }
{
    let c = path_matrix::read_column(columns, j + 1);
    if j == first { slice::not(c) } else { c }
}

// The digits of w in the columns that are not left out, the first of them turned over.
fn turned_bits(first: usize, w: u32) -> u32
    ensures { result ≡ turned_bits (width - first) w }
{
    if WIDTH <= first {
        return 0;
    }
    let half = 1u64 << (WIDTH - 1 - first);
    let y = w as u64 % (2 * half);
    if y < half {
        (y + half) as u32
    } else {
        (y - half) as u32
    }
}

// The rows found greater, g, and with them the rows of z that are greater at the column c, where the bit to compare with is b.
fn grow(g: Slice, z: Slice, c: Slice, b: bool) -> Slice
    ensures { component result ≡ grown b (component g) (component z) (component c) }
{
    if b { g } else { slice::or(g, slice::and(z, c)) }
}

// The rows of z whose bit in column j + 1 is b are put in g.
fn grow_rows(g: &mut [u64], z: &[u64], columns: &[u64], j: usize, b: bool, used: usize)
    requires { (length g.old ≡ 16) × (length z.now ≡ 16) × (16 * (j + 1) ≤ length columns.now) × (used ≤ 16) × NonePast used (rows_of z.now) }
    ensures { rows_of g.new ≡ either (rows_of g.old) (kept b (rows_of z.now) (matrix_column columns.now (j + 1))) }
{
    let mask = search_columns::mask_of(b);
    let from = COLUMN * j;
    for k in 0..used {
        g[k] |= z[k] & (columns[from + k] ^ mask);
    }
}

// GREAT at column j + 1, where z has no row past its first four words: what `grow` and `keep` do, in place.
fn compare_four(g: &mut [u64], z: &mut [u64], columns: &[u64], first: usize, j: usize, b: bool)
    requires { (length g.old ≡ 16) × (length z.old ≡ 16) × (16 * (j + 1) ≤ length columns.now) × NonePast 4 (rows_of z.old) }
    ensures greater { rows_of g.new ≡ grown b (rows_of g.old) (rows_of z.old) (turned first (matrix_column columns.now) (j + 1)) }
    ensures equal { rows_of z.new ≡ kept b (rows_of z.old) (turned first (matrix_column columns.now) (j + 1)) }
{
    if b {
        search_columns::keep_rows(z, columns, j, j != first, 4);
        return;
    }
    grow_rows(g, z, columns, j, j != first, 4);
    search_columns::keep_rows(z, columns, j, j == first, 4);
}

// Whether all columns are there and z has no row past its first four words.
fn in_four(columns: &[u64], z: &[u64; COLUMN]) -> bool
    ensures { result ≡ true → (512 ≤ length columns.now) × NonePast 4 (rows_of z.now) }
{
    if columns.len() < ALL {
        return false;
    }
    search_columns::words_used(z) <= 4
}

// GREAT: the selected rows that are greater than w, of which as many last digits are looked at as there are columns, and those that equal it. Beside the rows found greater, g, it carries the rows that are equal so far, z, and stops where there are none.
pub fn great_from(columns: &[u64], first: usize, w: u32, x: Slice) -> Compared
    ensures greater { component result.greater ≡ greater_than (integer_in (matrix_column columns.now) first (width - first)) (from_bits (width - first) w) (component x) }
    ensures equal { component result.equal ≡ same_as (integer_in (matrix_column columns.now) first (width - first)) (from_bits (width - first) w) (component x) }
{
    let v = turned_bits(first, w);
    let four = in_four(columns, &x.words);
    let mut g = Slice::empty();
    let mut z = x;
    for j in first..WIDTH {
        if slice::zero(z) {
            return Compared {
                greater: g,
                equal: z,
            };
        }
        let digit = WIDTH - 1 - j;
        let b = (v >> digit) % 2 == 1;
        if four {
            compare_four(&mut g.words, &mut z.words, columns, first, j, b);
        } else {
            let c = ordered(columns, first, j);
            g = grow(g, z, c, b);
            z = search_columns::keep(z, c, b);
        }
    }
    Compared {
        greater: g,
        equal: z,
    }
}
