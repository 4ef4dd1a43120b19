// MATCH over a table's columns, lent as words, its rows joined in place to those of a slice: what a procedure does for one vertex after another. No table and no slice is copied.
// The columns are read from right to left, without the first ones, as many as it is told, and no more of them once no row is left in the running. Assumes nothing.

#![tactic(auto)]

ghost use Rattle.std.specs.Prelude.{◌≡◌, true, false, cond, ℕ, ◌+◌, ◌-◌, ◌/◌, ◌^◌, ◌≤◌, ◌<◌, eqb, length, get_or};
ghost use Rattle.rowset.specs.Columns.{width, in_columns};
ghost use Rattle.rowset.specs.Counts.{equal_right, read_within};
ghost use Rattle.rowset.specs.Searches.{equal_to};
ghost use Rattle.rowset.specs.Sets.{any, empty, either};
ghost use Rattle.rowset.specs.Words.{in_words};
ghost use Rattle.path_matrix.specs.Matrix.{matrix_column};
ghost use Rattle.slice.specs.Slices.{size};
ghost use Rattle.search_columns.specs.Steps.Column.{kept};
ghost use Rattle.search_columns.specs.Steps.Rows.{rows_of, NonePast};
ghost use Rattle.search_join.specs.Steps.Ends.{ends_in, first_words, words_taken, words_for};

// The number of columns of a table, the words of a column and of a table, and the bits of a word.
const WIDTH: usize = 32;

const COLUMN: usize = 16;

const ALL: usize = 512;

const BITS: usize = 64;

// The number of columns on the left that a table of ends leaves Θ: a byte stands in the last eight.
const UPPER: usize = 24;

// The words in which MATCH has to look for the rows of a slice: one, four or sixteen.
pub fn words_for(rows: &[u64; COLUMN]) -> usize
    ensures { (result ≤ 16) × NonePast result (in_words rows.now) × (result ≡ words_for (in_words rows.now)) }
{
    let end = slice_words::last_row(rows);
    if end <= BITS {
        return 1;
    }
    if end <= 4 * BITS {
        return 4;
    }
    COLUMN
}

// Whether the first N words of z are all 0.
fn none_in<const N: usize>(z: &[u64; COLUMN]) -> bool
    requires { N ≤ 16 }
    ensures none { result ≡ true → (p : ℕ) → p < N → get_or z.now p 0 ≡ 0 }
    ensures some { result ≡ false → any size (rows_of z.now) ≡ true }
{
    let mut joined: u64 = 0;
    for k in 0..N {
        joined |= z[k];
    }
    joined == 0
}

// The rows of z, which has none past its first N words, come to those of x.
fn put_words<const N: usize>(x: &mut [u64; COLUMN], z: &[u64; COLUMN])
    requires { (N ≤ 16) × NonePast N (rows_of z.now) }
    ensures rows { rows_of x.new ≡ either (rows_of x.old) (rows_of z.now) }
    ensures size { length x.new ≡ 16 }
{
    for i in 0..N {
        x[i] |= z[i];
    }
}

// Of the rows of z, which has none past its first N words, those stay whose bit in column j + 1 is b.
fn keep_words<const N: usize>(z: &mut [u64; COLUMN], columns: &[u64; ALL], j: usize, b: bool)
    requires { (j < 32) × (N ≤ 16) × NonePast N (rows_of z.old) }
    ensures rows { rows_of z.new ≡ kept b (rows_of z.old) (matrix_column columns.now (j + 1)) }
    ensures size { length z.new ≡ 16 }
{
    search_columns::keep_rows(z, columns, j, b, N);
}

// Of the rows of z, which has none past its first N words, those stay that equal w's last digits, from column 32 to the left; it stops where no row is left in the running. The number of columns read. The number of words is a constant, so that the compiler keeps them in registers; with one function for any number of words MST1 took up to 1.5 times the instructions.
fn narrow<const N: usize>(
    z: &mut [u64; COLUMN],
    columns: &[u64; ALL],
    first: usize,
    w: u32,
) -> usize
    requires { (N ≤ 16) × NonePast N (rows_of z.old) }
    ensures rows { rows_of z.new ≡ equal_right (matrix_column columns.now) w (width - first) (rows_of z.old) }
    ensures read { result ≡ read_within (width - first) size (matrix_column columns.now) w (rows_of z.old) }
    ensures size { length z.new ≡ 16 }
{
    let count = WIDTH.saturating_sub(first);
    for k in 0..count {
        if none_in::<N>(z) {
            return k;
        }
        keep_words::<N>(z, columns, WIDTH - 1 - k, (w >> k) % 2 == 1);
    }
    count
}

// MATCH in the first N words of `rows`, its rows joined to those of x.
fn join<const N: usize>(
    x: &mut [u64; COLUMN],
    columns: &[u64; ALL],
    first: usize,
    w: u32,
    rows: &[u64; COLUMN],
) -> usize
    requires { N ≤ 16 }
    ensures rows { rows_of x.new ≡ either (rows_of x.old) (equal_right (matrix_column columns.now) w (width - first) (first_words N (rows_of rows.now))) }
    ensures size { length x.new ≡ 16 }
    ensures read { result ≡ read_within (width - first) size (matrix_column columns.now) w (first_words N (rows_of rows.now)) }
{
    let mut z = [0u64; COLUMN];
    z[..N].copy_from_slice(&rows[..N]);
    let read = narrow::<N>(&mut z, columns, first, w);
    put_words::<N>(x, &z);
    read
}

// MATCH in one, four or sixteen words.
fn join_words(
    x: &mut [u64; COLUMN],
    columns: &[u64; ALL],
    first: usize,
    w: u32,
    rows: &[u64; COLUMN],
    used: usize,
) -> usize
    ensures rows { rows_of x.new ≡ either (rows_of x.old) (equal_right (matrix_column columns.now) w (width - first) (first_words (words_taken used) (rows_of rows.now))) }
    ensures size { length x.new ≡ 16 }
    ensures read { result ≡ read_within (width - first) size (matrix_column columns.now) w (first_words (words_taken used) (rows_of rows.now)) }
{
    if used <= 1 {
        return join::<1>(x, columns, first, w, rows);
    }
    if used <= 4 {
        return join::<4>(x, columns, first, w, rows);
    }
    join::<COLUMN>(x, columns, first, w, rows)
}

// MATCH, its rows joined to those of x in place: of the rows in the first words, one, four or sixteen as `used` asks, those that equal w become 1 in x. None does where w has a digit before those of the columns that are not left out, and no column is read then. The number of columns read.
pub fn match_into(
    x: &mut [u64; COLUMN],
    columns: &[u64; ALL],
    first: usize,
    w: u32,
    rows: &[u64; COLUMN],
    used: usize,
) -> usize
    ensures rows { in_words x.new ≡ either (in_words x.old) (equal_to (in_columns (matrix_column columns.now) first (width - first)) w (first_words (words_taken used) (in_words rows.now))) }
    ensures size { length x.new ≡ 16 }
    ensures read { result ≡ cond (eqb (w / 2 ^ (width - first)) 0) (read_within (width - first) size (matrix_column columns.now) w (first_words (words_taken used) (in_words rows.now))) 0 }
{
    if !search_match::fits(first, w) {
        return 0;
    }
    join_words(x, columns, first, w, rows, used)
}

// MATCH over a table of ends, of which the columns before the last eight are Θ: of the rows in those words, those whose end is v become 1 in x.
pub fn match_ends(
    x: &mut [u64; COLUMN],
    ends: &[u64; ALL],
    v: u32,
    rows: &[u64; COLUMN],
    used: usize,
)
    ensures rows { in_words x.new ≡ either (in_words x.old) (equal_to (ends_in ends.now) v (first_words (words_taken used) (in_words rows.now))) }
    ensures size { length x.new ≡ 16 }
{
    match_into(x, ends, UPPER, v, rows, used);
}
