// Working tables: a slice of rows in use, lent as sixteen words, beside columns of 1,024 rows. A row is struck, a row is added, and MERGE packs the rows in use to the top.
// The list of numbers says where each row went. A call that is refused changes nothing.

#![tactic(auto)]

ghost use Rattle.std.specs.Prelude.{ℕ, suc, ◌+◌, ◌-◌, ◌*◌, ◌<◌, ◌≤◌, cond, ◌++◌, ◌≡◌, ◌≢◌, length, take, drop, replicate};
ghost use Rattle.refusal.specs.Outcomes.{refusal_of};
ghost use Rattle.rowset.specs.Sets.{put, count};
ghost use Rattle.rowset.specs.Words.{column_words, in_words};
ghost use Rattle.slice.specs.Slices.{size, component};
ghost use Rattle.star_spec.specs.Door.{bytes_of};
ghost use Rattle.star_spec.specs.Refusals.{max_rows};
ghost use Rattle.change.specs.Answers.{answer_of};
ghost use Rattle.change_spec.specs.Changes.{words_of, struck_words, merged, packed_table, room_made, added, add_answer};
ghost use Rattle.change_spec.specs.Packing.{kept_rows, packed, new_number, own_number, numbers_from, lowermost, with_row};
ghost use Rattle.change_spec.specs.Tables.{working, wrong_sizes, strike_refusal, merge_refusal};

pub mod carry; // carry.rt: a claim carried through the numbers

use refusal::{Cause, Refusal};
use slice::words::rows_in_use;
use slice::{SIZE, Slice, WORDS};

// The bytes of a row in the left and the right column, and in the weight column.
const END: usize = 1;

const PRICE: usize = 4;

// Whether the words, the columns or the list of numbers have another length than they should.
fn wrong_sizes(words: usize, left: usize, right: usize, weight: usize, numbers: usize) -> bool
    ensures { result ≡ wrong_sizes words left right weight numbers }
{
    words != WORDS || left != SIZE || right != SIZE || weight != PRICE * SIZE || numbers != SIZE
}

// The bytes of a slice's rows are moved to the top of a column in their order, and counted. Each byte is stored, and the next one takes its place where it does not belong.
fn keep_rows(column: &mut [u8], x: Slice, width: usize) -> usize
    requires { 1 ≤ width }
    ensures { (result ≡ length (kept_rows (component x) width column.old)) × (take result column.new ≡ kept_rows (component x) width column.old) × (length column.new ≡ length column.old) }
{
    let mut kept = 0;
    for b in 0..column.len() {
        column[kept] = column[b];
        kept += slice::get(x, b / width + 1) as usize;
    }
    kept
}

// A column with so many bytes a row is packed.
fn pack(column: &mut [u8], x: Slice, width: usize)
    requires { 1 ≤ width }
    ensures { column.new ≡ packed (component x) width column.old }
{
    let kept = keep_rows(column, x, width);
    column[kept..].fill(0);
}

// The numbers are written anew: new positions, or own ones.
fn number_rows(numbers: &mut [u32], x: Slice, packing: bool)
    requires { length numbers.old ≡ max_rows }
    ensures { numbers.new ≡ numbers_from (cond packing (new_number (component x)) (own_number (component x))) 0 max_rows }
{
    let mut count = 0;
    for i in 0..SIZE {
        let used = slice::get(x, i + 1);
        count += used as usize;
        let position = if packing { count } else { i + 1 };
        numbers[i] = if used { position as u32 } else { 0 };
    }
}

// The bytes of a number are written in a row of a column with N bytes a row.
fn write_row<const N: usize>(column: &mut [u8], row: usize, bytes: [u8; N])
    requires { (1 ≤ row) × (N * row ≤ length column.old) }
    ensures { (v : ℕ) → bytes.entry ≡ bytes_of N v → column.new ≡ with_row N column.old row v }
{
    let at = N * (row - 1);
    column[at..at + N].copy_from_slice(&bytes);
}

// The words become those of a slice. Words that are not sixteen stay as they were.
pub fn write_rows(words: &mut [u64], x: Slice)
    ensures stored { length words.old ≡ column_words → words.new ≡ words_of (component x) }
    ensures kept { length words.old ≢ column_words → words.new ≡ words.old }
{
    if words.len() != WORDS {
        return;
    }
    words.copy_from_slice(&x.words);
}

// Striking: only the row's bit is cleared. Refused 18 where the row is not in use, then 3 where the words are not sixteen.
pub fn strike(words: &mut [u64], row: u32) -> Result<(), Refusal>
    ensures answer { refusal_of result ≡ strike_refusal words.old row }
    ensures rows { words.new ≡ struck_words words.old row }
{
    let x = rows_in_use(words);
    if !slice::get(x, row as usize) {
        return Err(Refusal::of(Cause::NotInUse as u32));
    }
    if words.len() != WORDS {
        return Err(Refusal::of(Cause::BadLengths as u32));
    }
    write_rows(words, slice::put(x, row as usize, false));
    Ok(())
}

// The whole table is packed: the columns, the numbers, and the rows in use.
fn pack_table(
    words: &mut [u64],
    left: &mut [u8],
    right: &mut [u8],
    weight: &mut [u8],
    numbers: &mut [u32],
    x: Slice,
)
    requires { (component x ≡ in_words words.old) × (length words.old ≡ column_words) × (length numbers.old ≡ max_rows) }
    ensures { working words.new left.new right.new weight.new numbers.new ≡ packed_table (working words.old left.old right.old weight.old numbers.old) }
{
    pack(left, x, END);
    pack(right, x, END);
    pack(weight, x, PRICE);
    number_rows(numbers, x, true);
    write_rows(words, slice::rows::rows_to(slice_words::count_rows(x)));
}

// MERGE: the rows in use are packed to the top in their order, the rest is cleared, and the numbers are filled. Refused 3 where a length is wrong.
pub fn merge(
    words: &mut [u64],
    left: &mut [u8],
    right: &mut [u8],
    weight: &mut [u8],
    numbers: &mut [u32],
) -> Result<(), Refusal>
    ensures answer { refusal_of result ≡ merge_refusal (working words.old left.old right.old weight.old numbers.old) }
    ensures table { working words.new left.new right.new weight.new numbers.new ≡ merged (working words.old left.old right.old weight.old numbers.old) }
{
    if wrong_sizes(
        words.len(),
        left.len(),
        right.len(),
        weight.len(),
        numbers.len(),
    ) {
        return Err(Refusal::of(Cause::BadLengths as u32));
    }
    let x = rows_in_use(words);
    pack_table(words, left, right, weight, numbers, x);
    Ok(())
}

// Before a row is added: the table is packed where row 1,024 is in use; else the numbers become the rows' own positions.
fn make_room(
    words: &mut [u64],
    left: &mut [u8],
    right: &mut [u8],
    weight: &mut [u8],
    numbers: &mut [u32],
    x: Slice,
)
    requires { (component x ≡ in_words words.old) × (length words.old ≡ column_words) × (length numbers.old ≡ max_rows) }
    ensures { working words.new left.new right.new weight.new numbers.new ≡ room_made (working words.old left.old right.old weight.old numbers.old) }
{
    if slice::get(x, SIZE) {
        pack_table(words, left, right, weight, numbers, x);
    } else {
        number_rows(numbers, x, false);
    }
}

// A row is written directly after the last row in use; its position.
fn put_row(
    words: &mut [u64],
    left: &mut [u8],
    right: &mut [u8],
    weight: &mut [u8],
    a: u8,
    b: u8,
    price: u32,
) -> usize
    requires words_bound { (lowermost max_rows (in_words words.old) < max_rows) × (length words.old ≡ column_words) }
    requires columns { (length left.old ≡ max_rows) × (length right.old ≡ max_rows) × (length weight.old ≡ 4 * max_rows) }
    ensures position { result ≡ suc (lowermost max_rows (in_words words.old)) }
    ensures rows { words.new ≡ words_of (put (in_words words.old) result) }
    ensures lefts { left.new ≡ with_row 1 left.old result a }
    ensures rights { right.new ≡ with_row 1 right.old result b }
    ensures weights { weight.new ≡ with_row 4 weight.old result price }
{
    let x = rows_in_use(words);
    let row = slice_words::last_row(&x.words) + 1;
    write_rows(words, slice::put(x, row, true));
    write_row(left, row, a.to_le_bytes());
    write_row(right, row, b.to_le_bytes());
    write_row(weight, row, price.to_le_bytes());
    row
}

// Adding a row of two ends and a price: directly after the last row in use, at 1 where there is none; where row 1,024 is in use the table is packed first.
// Refused 17 where all rows are in use, then 3 where a length is wrong.
pub fn add_row(
    words: &mut [u64],
    left: &mut [u8],
    right: &mut [u8],
    weight: &mut [u8],
    numbers: &mut [u32],
    a: u8,
    b: u8,
    price: u32,
) -> Result<u32, Refusal>
    ensures answer { answer_of result ≡ add_answer (working words.old left.old right.old weight.old numbers.old) }
    ensures table { working words.new left.new right.new weight.new numbers.new ≡ added (working words.old left.old right.old weight.old numbers.old) a b price }
{
    let x = rows_in_use(words);
    if slice_words::count_rows(x) == SIZE {
        return Err(Refusal::of(Cause::TableFull as u32));
    }
    if wrong_sizes(
        words.len(),
        left.len(),
        right.len(),
        weight.len(),
        numbers.len(),
    ) {
        return Err(Refusal::of(Cause::BadLengths as u32));
    }
    make_room(words, left, right, weight, numbers, x);
    let row = put_row(words, left, right, weight, a, b, price);
    Ok(row as u32)
}
