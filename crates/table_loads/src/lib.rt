// Byte columns loaded straight into the words of a table's columns, which the caller lends: ends, with one byte a row, and prices, with four. Only the words that the rows reach are written, and of a table of ends only the last eight columns. Columns of zeros then hold the table. A column that cannot be loaded, one of over 1,024 rows or whose length is not a number of whole rows, leaves all as it was.
// The bytes of eight rows, each eight after the one before it, go into one word, a block. The bits k of its bytes are then taken out together, so that eight blocks give 64 rows.
// Beside the loads: how many columns only repeat the sign, and a row's end, which is read from its byte and needs no load.

#![tactic(auto)]

ghost use Rattle.std.specs.Prelude.{◌≡◌, ℕ, ◌+◌, ◌-◌, ◌*◌, ◌/◌, ◌<◌, ◌≤◌, length, get_or};
ghost use Rattle.rowset.specs.Columns.{width, in_columns, repeated_columns};
ghost use Rattle.path_matrix.specs.Matrix.{matrix_column};
ghost use Rattle.slice_planes.specs.Steps.Blocks.{from_digits, row_byte, block_of, word_of};
ghost use Rattle.slice.specs.Slices.{size};
ghost use Rattle.table.specs.Loads.{loaded_row};
ghost use Rattle.table_loads.specs.Steps.Stores.{Rows, with_planes, with_bytes, with_words, with_load, Zeros};

use slice::{BITS, WORDS};
use slice_planes::word;
use table::WIDTH;

// The words of a table's columns.
pub const ALL: usize = 512;

// The bytes of row `first` and of every eighth row after it, `count` in all.
fn block(column: &[u8], stride: usize, offset: usize, first: usize, count: usize) -> u64
    requires { (count ≤ 8) × (first < 1024) × (stride ≤ 4) × (offset < 4) × ((l : ℕ) → l < count → offset + stride * (first + 8 * l) < length column.now) }
    ensures { result ≡ from_digits 256 (λ l. row_byte column.now stride offset (first + 8 * l)) 0 count }
{
    let start = offset + stride * first;
    let step = 8 * stride;
    let mut block: u64 = 0;
    for l in (0..count).rev() {
        block = block * 256 + u64::from(column[start + step * l]);
    }
    block
}

// The eight blocks of 64 rows: byte l of block g is that of row 64 q + 8 l + g, rows counted from 0.
fn whole(column: &[u8], stride: usize, offset: usize, q: usize, rows: usize) -> [u64; 8]
    requires { Rows column.now stride rows × (offset < stride) × (64 * q + 64 ≤ rows) }
    ensures { (g : ℕ) → g < 8 → get_or result g 0 ≡ block_of column.now stride offset (64 * q + g) }
{
    let mut blocks = [0u64; 8];
    for g in 0..8 {
        blocks[g] = block(column, stride, offset, BITS * q + g, 8);
    }
    blocks
}

// The blocks of the rows from row 64 q on, where there are less than 64.
fn part(column: &[u8], stride: usize, offset: usize, q: usize, rows: usize) -> [u64; 8]
    requires { Rows column.now stride rows × (offset < stride) × (64 * q < rows) × (rows < 64 * q + 64) }
    ensures { (g : ℕ) → g < 8 → get_or result g 0 ≡ block_of column.now stride offset (64 * q + g) }
{
    let left = rows - BITS * q;
    let mut blocks = [0u64; 8];
    for g in 0..8 {
        blocks[g] = block(column, stride, offset, BITS * q + g, (left + 7 - g) / 8);
    }
    blocks
}

// The blocks of the rows from row 64 q on, and of no row past the column's end. Whole blocks have a loop of a fixed length, which takes half the time.
fn gather(column: &[u8], stride: usize, offset: usize, q: usize, rows: usize) -> [u64; 8]
    requires { Rows column.now stride rows × (offset < stride) × (64 * q < rows) }
    ensures { (g : ℕ) → g < 8 → get_or result g 0 ≡ block_of column.now stride offset (64 * q + g) }
{
    if BITS * q + BITS <= rows {
        whole(column, stride, offset, q, rows)
    } else {
        part(column, stride, offset, q, rows)
    }
}

// The eight planes of a byte, the lowest at index `at` and each next one a column to the left.
fn put_planes(columns: &mut [u64; ALL], blocks: &[u64; 8], at: usize)
    requires { (112 ≤ at) × (at < 512) }
    ensures { columns.new ≡ with_planes columns.old at (λ k. word_of blocks.now k 0) 8 }
{
    for k in 0..8 {
        columns[at - WORDS * k] = word(blocks, k);
    }
}

// Word q of the columns.
fn put_bytes(columns: &mut [u64; ALL], column: &[u8], stride: usize, q: usize, rows: usize)
    requires { Rows column.now stride rows × (64 * q < rows) }
    ensures { columns.new ≡ with_bytes columns.old column.now stride q stride }
{
    for offset in 0..stride {
        let blocks = gather(column, stride, offset, q, rows);
        put_planes(columns, &blocks, WORDS * (WIDTH - 1 - 8 * offset) + q);
    }
}

// The words that the rows reach.
fn put_words(columns: &mut [u64; ALL], column: &[u8], stride: usize, rows: usize)
    requires { Rows column.now stride rows }
    ensures { columns.new ≡ with_words columns.old column.now stride ((rows + 63) / 64) }
{
    for q in 0..rows.div_ceil(BITS) {
        put_bytes(columns, column, stride, q, rows);
    }
}

// A load of a column with `stride` bytes a row. Where the columns held zeros, all of them, or as many of the last as the bytes need, then hold the rows.
fn put(column: &[u8], stride: usize, columns: &mut [u64; ALL])
    requires { (1 ≤ stride) × (stride ≤ 4) }
    ensures columns { columns.new ≡ with_load columns.old column.now stride }
    ensures rows { Zeros columns.old → (s n : ℕ) → s + n ≡ width → 8 * stride ≤ n → in_columns (matrix_column columns.new) s n ≡ loaded_row stride column.now }
{
    if stride * slice::SIZE < column.len() {
        return;
    }
    if column.len() % stride != 0 {
        return;
    }
    put_words(columns, column, stride, column.len() / stride);
}

// A table with one byte a row, put into columns. Where they held zeros, the number in the last eight columns, and so in all, is then the row's.
pub fn put_ends(column: &[u8], columns: &mut [u64; ALL])
    ensures columns { columns.new ≡ with_load columns.old column.now 1 }
    ensures last { Zeros columns.old → in_columns (matrix_column columns.new) 24 (width - 24) ≡ loaded_row 1 column.now }
    ensures rows { Zeros columns.old → in_columns (matrix_column columns.new) 0 width ≡ loaded_row 1 column.now }
{
    put(column, 1, columns);
}

// A table with four bytes a row, least significant first, put into columns. Where they held zeros, the number in all of them is then the row's.
pub fn put_prices(column: &[u8], columns: &mut [u64; ALL])
    ensures columns { columns.new ≡ with_load columns.old column.now 4 }
    ensures rows { Zeros columns.old → in_columns (matrix_column columns.new) 0 width ≡ loaded_row 4 column.now }
{
    put(column, 4, columns);
}

// The number of columns on the left that GREAT, MIN and MAX may leave out: those before the last of the columns on the left that equal column 1.
pub fn sign_columns(columns: &[u64]) -> usize
    ensures { result ≡ repeated_columns size (matrix_column columns.now) 1 31 }
{
    let sign = path_matrix::read_column(columns, 1);
    for j in 1..WIDTH {
        if slice::some(slice::xor(sign, path_matrix::read_column(columns, j + 1))) {
            return j - 1;
        }
    }
    WIDTH - 1
}

// The end that row i has after a load of a column of ends, read from its byte.
pub fn end_at(column: &[u8], i: usize) -> u32
    ensures end { result ≡ loaded_row 1 column.now i }
    ensures small { result < 256 }
{
    if slice::SIZE < column.len() {
        return 0;
    }
    if i < 1 || column.len() < i {
        return 0;
    }
    u32::from(column[i - 1])
}
