// Tables of 1,024 rows of 32 bits, stored as 32 slices; column 1 is the most significant. COL and ROW read a table; a load makes one from a column of bytes.

#![tactic(auto)]

ghost use Rattle.std.specs.Prelude.{◌≡◌, ℕ, ◌+◌, ◌*◌, ◌≤◌, ◌<◌, ◌^◌, is_ok, eqb};
ghost use Rattle.rowset.specs.Sets.{empty};
ghost use Rattle.slice.specs.Slices.{component};
ghost use Rattle.table.specs.Tables.{column, row};
ghost use Rattle.table.specs.Loads.{load_refused, load_refusal, loaded_row, refusal_in, table_in};
ghost use Rattle.table.specs.Steps.Loading.{byte_in, upper_bytes};

use refusal::{Cause, Refusal};
use slice::Slice;
use slice_planes::Planes;

// The number of columns of a table, and of those left of the last eight.
pub const WIDTH: usize = 32;

const UPPER: usize = 24;

// The table's columns from left to right: column j stands at index j - 1.
#[derive(Clone, Copy)]
pub struct Table {
    pub columns: [Slice; WIDTH],
}

// What a refused load gives: the refusal, and the table of zeros.
#[derive(Clone, Copy)]
pub struct RefusedLoad {
    pub refusal: Refusal,
    pub table: Table,
}

impl Table {
    // The table of zeros.
    pub const ZERO: Table = Table {
        columns: [Slice::EMPTY; WIDTH],
    };

    pub fn zero() -> Table
        ensures columns { column result ≡ (λ j. empty) }
        ensures rows { row result ≡ (λ i. 0) }
    {
        Table::ZERO
    }
}

// COL: column j, Θ outside 1 to 32.
pub fn col(t: Table, j: usize) -> Slice
    ensures { component result ≡ column t j }
{
    if j < 1 || WIDTH < j {
        return Slice::empty();
    }
    t.columns[j - 1]
}

// ROW: the number in row i, 0 outside 1 to 1,024.
pub fn row_of(t: Table, i: usize) -> u32
    ensures { result ≡ row t i }
{
    let mut r: u32 = 0;
    for column in &t.columns {
        r = r * 2 + u32::from(slice::get(*column, i));
    }
    r
}

// The rows with one byte more on the right: the columns move by eight places to the left, and the planes of the byte follow.
fn append(t: Table, p: Planes) -> Table
    requires { (i : ℕ) → row t i < 2 ^ 24 }
    ensures { row result ≡ (λ i. 256 * row t i + byte_in p i) }
{
    let mut r = t;
    for j in 0..WIDTH {
        r.columns[j] = if j < UPPER {
            t.columns[j + 8]
        } else {
            p.planes[WIDTH - 1 - j]
        };
    }
    r
}

// The first 1,024 rows of a column with `count` bytes a row, built from the most significant byte to the least.
fn filled(column: &[u8], count: u32) -> Table
    requires { count ≤ 4 }
    ensures { row result ≡ upper_bytes column.now count 0 }
{
    let mut t = Table::zero();
    for k in (0..count).rev() {
        t = append(t, slice_planes::split(column, count, k));
    }
    t
}

// A load that is refused with this number: the table of zeros.
fn declined(number: u32) -> RefusedLoad
    ensures refusal { result.refusal ≡ load_refused number }
    ensures rows { row result.table ≡ (λ i. 0) }
{
    RefusedLoad {
        refusal: Refusal::of(number),
        table: Table::zero(),
    }
}

// A load of a column with `count` bytes a row.
fn load(column: &[u8], count: u32) -> Result<Table, RefusedLoad>
    requires { (1 ≤ count) × (count ≤ 4) }
    ensures refusal { refusal_in result ≡ load_refusal count column.now }
    ensures rows { row (table_in result) ≡ loaded_row count column.now }
    ensures taken { is_ok result ≡ eqb (load_refusal count column.now).number 0 }
{
    let bytes = count as usize;
    if bytes * slice::SIZE < column.len() {
        return Err(declined(Cause::TooManyRows as u32));
    }
    if column.len() % bytes != 0 {
        return Err(declined(Cause::BadLengths as u32));
    }
    Ok(filled(column, count))
}

// A load of a column with one byte a row.
pub fn load_bytes(column: &[u8]) -> Result<Table, RefusedLoad>
    ensures refusal { refusal_in result ≡ load_refusal 1 column.now }
    ensures rows { row (table_in result) ≡ loaded_row 1 column.now }
    ensures taken { is_ok result ≡ eqb (load_refusal 1 column.now).number 0 }
{
    load(column, 1)
}

// A load of a column with four bytes a row, least significant first.
pub fn load_quads(column: &[u8]) -> Result<Table, RefusedLoad>
    ensures refusal { refusal_in result ≡ load_refusal 4 column.now }
    ensures rows { row (table_in result) ≡ loaded_row 4 column.now }
    ensures taken { is_ok result ≡ eqb (load_refusal 4 column.now).number 0 }
{
    load(column, 4)
}
