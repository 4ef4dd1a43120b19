// The checks that every procedure makes of a table of m rows, and CST and MatrixPath of a claim: causes 1 to 4, 15, 6 and 9, each for columns of any bytes and any lengths.
// What stands in rows that are not in use is not looked at.
// Rows are counted from 1; 0 is no row, and a byte past a column's end reads 0.

#![tactic(auto)]

ghost use Rattle.std.specs.Prelude.{ℕ, ◌+◌, ◌≤◌, Bool, false, List, [], ◌∷◌, ◌++◌, ◌≡◌, length, get_or};
ghost use Rattle.rowset.specs.Bytes.{little, in_row};
ghost use Rattle.rowset.specs.Sets.{both, uppermost, count};
ghost use Rattle.rowset.specs.Words.{in_words};
ghost use Rattle.pairs.specs.Pairs.{has_pair};
ghost use Rattle.slice.specs.Slices.{component};
ghost use Rattle.refusal.specs.Outcomes.{refusal_of};
ghost use Rattle.star_spec.specs.Call.{Call, marked, table_of};
ghost use Rattle.star_spec.specs.Refusals.{max_vertices, max_rows, cause, cause_at, or_else, refusal, bad_vertices, too_many_rows, wrong_lengths, wrong_ends, wrong_row, repeats_above, wrong_byte, bad_claim, bad_count, row_causes, table_causes};
ghost use Rattle.table_checks.specs.Steps.Seen.{seen_pair, with_seen, Room};

use refusal::{Cause, Refusal};
use slice::Slice;

// The largest n and m that are taken.
pub const MAX_VERTICES: u32 = 255;

pub const MAX_ROWS: usize = 1024;

// Two numbers of vertices that many tables do not exceed, and the words that a set of pairs of as many needs.
const FEW: u32 = 16;

const FEW_WORDS: usize = 64;

const SOME: u32 = 64;

const SOME_WORDS: usize = 256;

// The byte at index k, 0 past the column's end.
fn byte_at(column: &[u8], k: usize) -> u8
    ensures { result ≡ get_or column.now k 0 }
{
    column.get(k).copied().unwrap_or(0)
}

// The number in row i of a column with one byte a row.
pub fn row_byte(column: &[u8], i: usize) -> u8
    ensures { result ≡ in_row 1 column.now i }
{
    if i < 1 {
        return 0;
    }
    byte_at(column, i - 1)
}

// The number in the four bytes from an index on, all of which the column has: no byte is tested.
fn quad(weight: &[u8], at: usize) -> u32
    requires { at + 4 ≤ length weight.now }
    ensures { result ≡ little weight.now at 4 }
{
    u32::from_le_bytes([weight[at], weight[at + 1], weight[at + 2], weight[at + 3]])
}

// The number of the 32 bits in row i of a column with four bytes a row, least significant first. A row that the column has whole is read after one test; one that begins past its end holds 0.
pub fn row_weight(weight: &[u8], i: usize) -> u32
    ensures { result ≡ in_row 4 weight.now i }
{
    if i < 1 {
        return 0;
    }
    let k = i - 1;
    let rows = weight.len() / 4;
    if k < rows {
        return quad(weight, 4 * k);
    }
    if rows < k {
        return 0;
    }
    let at = 4 * k;
    let b0 = byte_at(weight, at) as u32;
    let b1 = byte_at(weight, at + 1) as u32;
    let b2 = byte_at(weight, at + 2) as u32;
    b0 + 256 * (b1 + 256 * b2)
}

// Refused with this number and place 0 where the test holds, else done.
pub fn refused_if(test: bool, number: u32) -> Result<(), Refusal>
    ensures { refusal_of result ≡ cause test number 0 }
{
    if test {
        return Err(Refusal::of(number));
    }
    Ok(())
}

// Refused with this number at a row or vertex, and done at 0, which says that there is none.
pub fn refused_at(number: u32, place: u32) -> Result<(), Refusal>
    ensures { refusal_of result ≡ cause_at number place }
{
    if place == 0 {
        return Ok(());
    }
    Err(Refusal { number, place })
}

// The first of two answers that is a refusal.
pub fn first(a: Result<(), Refusal>, b: Result<(), Refusal>) -> Result<(), Refusal>
    ensures { refusal_of result ≡ or_else (refusal_of a) (refusal_of b) }
{
    a?;
    b
}

// Causes 1 and 2, of n and the number m of rows.
pub fn size_check(n: u32, m: usize) -> Result<(), Refusal>
    ensures { refusal_of result ≡ refusal (bad_vertices n ∷ too_many_rows m ∷ []) }
{
    refused_if(n == 0 || MAX_VERTICES < n, Cause::BadJunctionCount as u32)?;
    refused_if(MAX_ROWS < m, Cause::TooManyRows as u32)
}

// Whether the rows in use were not handed in for all m rows, at most 1,024, or a column is not as long as m rows.
fn wrong_lengths(
    whole: bool,
    m: usize,
    left: usize,
    right: usize,
    weight: usize,
    mark: usize,
) -> bool
    requires { m ≤ max_rows }
    ensures { cause result 3 0 ≡ wrong_lengths whole m left right weight mark }
{
    if !whole {
        return true;
    }
    if left != m {
        return true;
    }
    if right != m {
        return true;
    }
    if mark != m {
        return true;
    }
    weight != 4 * m
}

// Cause 3.
fn lengths_check(
    whole: bool,
    m: usize,
    left: usize,
    right: usize,
    weight: usize,
    mark: usize,
) -> Result<(), Refusal>
    requires { m ≤ max_rows }
    ensures { refusal_of result ≡ wrong_lengths whole m left right weight mark }
{
    refused_if(
        wrong_lengths(whole, m, left, right, weight, mark),
        Cause::BadLengths as u32,
    )
}

// Whether an end of a row is 0 or above n, or both are equal.
fn wrong_ends(n: u32, a: u32, b: u32) -> bool
    ensures { result ≡ wrong_ends n a b }
{
    a == 0 || n < a || b == 0 || n < b || a == b
}

// Whether row k is one of the rows, lent as words, and its ends are wrong.
fn wrong_row(n: u32, rows: &[u64], left: &[u8], right: &[u8], k: usize) -> bool
    ensures { result ≡ wrong_row (in_words rows.now) n left.now right.now k }
{
    if !wrong_ends(n, row_byte(left, k) as u32, row_byte(right, k) as u32) {
        return false;
    }
    slice_words::row_in(rows, k)
}

// The uppermost such row of 1 to m, 0 where there is none.
fn first_bad_row(n: u32, m: usize, rows: Slice, left: &[u8], right: &[u8]) -> usize
    requires { m ≤ max_rows }
    ensures { result ≡ uppermost m (wrong_row (component rows) n left.now right.now) }
{
    for i in 1..m + 1 {
        if wrong_row(n, &rows.words, left, right, i) {
            return i;
        }
    }
    0
}

// Whether row i, of ends a and b, is one of the rows, lent as words, and a set of pairs has its pair, which is put in.
fn repeated(above: &mut [u64], rows: &[u64], i: usize, a: u8, b: u8) -> bool
    ensures seen { result ≡ seen_pair (in_words rows.now) above.old i a b }
    ensures after { above.new ≡ with_seen (in_words rows.now) above.old i a b }
{
    if !slice_words::row_in(rows, i) {
        return false;
    }
    pairs::put(above, a, b)
}

// The uppermost of the rows of 1 to m that joins the same pair of ends as one of them above it, 0 where there is none. One pass from the top: the pairs of the rows above are in a lent set of pairs, empty at first, which has the word of each row's pair.
fn first_repeat_in(above: &mut [u64], m: usize, rows: Slice, left: &[u8], right: &[u8]) -> usize
    requires rows { m ≤ max_rows }
    requires empty { (x y : ℕ) → has_pair above.old x y ≡ false }
    requires room { Room (component rows) left.now right.now m (length above.old) }
    ensures { result ≡ uppermost m (repeats_above (component rows) left.now right.now) }
{
    for row in 1..m + 1 {
        if repeated(
            above,
            &rows.words,
            row,
            row_byte(left, row),
            row_byte(right, row),
        ) {
            return row;
        }
    }
    0
}

// The same with a set of its own, a smaller one where there are fewer vertices. No row's ends are wrong.
fn first_repeat(n: u32, m: usize, rows: Slice, left: &[u8], right: &[u8]) -> usize
    requires vertices { n ≤ max_vertices }
    requires rows { m ≤ max_rows }
    requires ends { uppermost m (wrong_row (component rows) n left.now right.now) ≡ 0 }
    ensures { result ≡ uppermost m (repeats_above (component rows) left.now right.now) }
{
    if n <= FEW {
        let mut few = [0u64; FEW_WORDS];
        return first_repeat_in(&mut few, m, rows, left, right);
    }
    if n <= SOME {
        let mut some = [0u64; SOME_WORDS];
        return first_repeat_in(&mut some, m, rows, left, right);
    }
    let mut all = [0u64; pairs::WORDS];
    first_repeat_in(&mut all, m, rows, left, right)
}

// Causes 4 and 15, of a table with at most 255 vertices and 1,024 rows, whatever its weights and claim. Repeats are sought only where no row's ends are wrong.
fn rows_check(n: u32, m: usize, rows: Slice, left: &[u8], right: &[u8]) -> Result<(), Refusal>
    requires vertices { n ≤ max_vertices }
    requires rows { m ≤ max_rows }
    ensures { let table : Bool → List ℕ → List ℕ → Call = λ whole. table_of n m whole (component rows) left.now right.now in
        ((whole : Bool) (weight mark : List ℕ) → refusal_of result ≡ refusal (row_causes (table whole weight mark))) }
{
    refused_at(
        Cause::BadEnd as u32,
        first_bad_row(n, m, rows, left, right) as u32,
    )?;
    refused_at(
        Cause::RepeatedRow as u32,
        first_repeat(n, m, rows, left, right) as u32,
    )
}

// Causes 1 to 4 and 15, of a table of m rows of which those of a slice are in use.
pub fn table_check(
    n: u32,
    m: usize,
    whole: bool,
    rows: Slice,
    left: &[u8],
    right: &[u8],
    weight: &[u8],
    mark: &[u8],
) -> Result<(), Refusal>
    ensures { let c = table_of n m whole (component rows) left.now right.now weight.now mark.now in
        refusal_of result ≡ refusal (table_causes c) }
{
    size_check(n, m)?;
    lengths_check(whole, m, left.len(), right.len(), weight.len(), mark.len())?;
    rows_check(n, m, rows, left, right)
}

// Whether the row at a position is one of the rows, lent as words, and its claim byte is other than 0 and 1.
fn wrong_mark(rows: &[u64], mark: &[u8], at: usize) -> bool
    ensures { result ≡ wrong_byte (in_words rows.now) mark.now at }
{
    if row_byte(mark, at) <= 1 {
        return false;
    }
    slice_words::row_in(rows, at)
}

// The uppermost of the rows of 1 to m whose claim byte is other than 0 and 1, 0 where there is none.
fn first_bad_mark(m: usize, rows: Slice, mark: &[u8]) -> usize
    requires { m ≤ max_rows }
    ensures { result ≡ uppermost m (wrong_byte (component rows) mark.now) }
{
    for at in 1..m + 1 {
        if wrong_mark(&rows.words, mark, at) {
            return at;
        }
    }
    0
}

// Causes 1 to 4, 15 and 6.
pub fn claim_check(
    n: u32,
    m: usize,
    whole: bool,
    rows: Slice,
    left: &[u8],
    right: &[u8],
    weight: &[u8],
    mark: &[u8],
) -> Result<(), Refusal>
    ensures { let c = table_of n m whole (component rows) left.now right.now weight.now mark.now in
        refusal_of result ≡ refusal (table_causes c ++ (bad_claim c ∷ [])) }
{
    table_check(n, m, whole, rows, left, right, weight, mark)?;
    refused_at(Cause::BadMark as u32, first_bad_mark(m, rows, mark) as u32)
}

// Whether a row is one of the rows, lent as words, and the claim marks it.
fn marked_row(rows: &[u64], mark: &[u8], row: usize) -> bool
    ensures { result ≡ both (in_words rows.now) (marked mark.now) row }
{
    if row_byte(mark, row) != 1 {
        return false;
    }
    slice_words::row_in(rows, row)
}

// The number of rows among the first m of a slice that the claim marks.
fn count_marks(m: usize, rows: Slice, mark: &[u8]) -> usize
    ensures { result ≡ count m (both (component rows) (marked mark.now)) }
{
    let mut marks = 0;
    for i in 0..m {
        if marked_row(&rows.words, mark, i + 1) {
            marks += 1;
        }
    }
    marks
}

// Cause 9, of n and the rows among the first m of a slice that the claim marks, whatever the other columns are.
pub fn count_check(n: u32, m: usize, rows: Slice, mark: &[u8]) -> Result<(), Refusal>
    ensures { (whole : Bool) (left right weight : List ℕ) → refusal_of result ≡ bad_count (table_of n m whole (component rows) left right weight mark.now) }
{
    let marks = count_marks(m, rows, mark);
    refused_if(
        n == 0 || marks != n as usize - 1,
        Cause::BadMarkCount as u32,
    )
}
