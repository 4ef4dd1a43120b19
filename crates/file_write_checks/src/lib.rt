// The checks before a table is written as a table file. Where none refuses, what is written reads back as the table.

#![tactic(auto)]

ghost use Rattle.std.specs.Prelude.{◌||◌, ◌≡◌, ◌≤◌, length};
ghost use Rattle.file_writer.specs.Columns.{sheet_of, room};
ghost use Rattle.file_writer.specs.Forms.{is_separator, parts};
ghost use Rattle.refusal.specs.Outcomes.{refusal_of};
ghost use Rattle.rowset.specs.Sets.{uppermost};
ghost use Rattle.star_spec.specs.Refusals.{max_rows};
ghost use Rattle.std.specs.List.{list_all};
ghost use Rattle.file_write_checks.specs.Steps.{fault_of};
ghost use Rattle.file_write_checks.specs.Checks.{wrong_columns, past_row, size_cause, fault_cause, fits, full, name_fits, name_fault, most_end, bad_end, opens_other, name_if, row_fault, longest_to, room_cause, write_cause};

use file_line::{any_letter, of_names};
use file_text::is_blank;
use file_writer::{entry, is_struck, place};
use refusal::{Cause, Refusal};
use stp_words::same;
use table_checks::{refused_at, refused_if, row_byte};

// The most rows and names, the words of the rows in use, and the longest text that is read.
const ROWS: usize = 1024;

const NAMES: usize = 255;

const WORDS: usize = 16;

const MAX_TEXT: usize = 16777216;

// Whether a byte parts fields.
#[tactic(auto, unfolding(file_writer::specs::Forms::is_separator))]
fn is_separator(s: u8) -> bool
    ensures { result ≡ is_separator s }
{
    matches!(s, b';' | b'\t' | b',' | b' ')
}

// Whether no field holds a byte where s parts the fields.
#[tactic(auto, unfolding(file_writer::specs::Forms::parts, file_writer::specs::Forms::goes_before, file_spec::specs::Pieces::is_byte))]
fn parts_at(s: u8, b: u8) -> bool
    ensures { result ≡ parts s b }
{
    match s {
        b';' => b == b';',
        b'\t' => matches!(b, b';' | b'\t'),
        b',' => matches!(b, b';' | b'\t' | b','),
        _ => b == s || matches!(b, b';' | b'\t' | b','),
    }
}

// Whether a name may hold a byte.
#[tactic(auto, unfolding(crate::specs::Checks::fits))]
fn byte_fits(s: u8, b: u8) -> bool
    ensures { result ≡ fits s b }
{
    of_names(b) && b != b'#' && !parts_at(s, b)
}

// Whether a name may hold each byte.
fn bytes_fit(s: u8, w: &[u8]) -> bool
    ensures { result ≡ list_all (fits s) w.now }
{
    w.iter().all(|b| byte_fits(s, *b))
}

// Whether no blank stands in front or behind.
fn edges_full(w: &[u8]) -> bool
    ensures { result ≡ full w.now }
{
    if w.is_empty() {
        return true;
    }
    let a = is_blank(w[0]);
    let b = is_blank(w[w.len() - 1]);
    !a && !b
}

// Whether bytes are a name that the file can have.
#[tactic(auto, using(crate::proofs::Laws::name_fitting))]
fn name_fits(s: u8, w: &[u8]) -> bool
    ensures { result ≡ name_fits s w.now }
{
    bytes_fit(s, w) && any_letter(w) && edges_full(w)
}

// What is wrong with the name of a junction: its cause, if it has one.
fn name_fault(s: u8, text: &[u8], starts: &[u32], ends: &[u32], v: usize) -> Option<u32>
    ensures { result ≡ fault_of (name_fault s text.now starts.now ends.now v) }
{
    let k = v.saturating_sub(1);
    let from = place(starts, k);
    let to = place(ends, k);
    if to < from {
        return Some(Cause::BadNamePlaces as u32);
    }
    if text.len() < to {
        return Some(Cause::BadNamePlaces as u32);
    }
    if name_fits(s, &text[from..to]) {
        return None;
    }
    Some(Cause::NotJunction as u32)
}

// The names' causes, of at most 255: that of the first name that has one.
fn names_check(s: u8, text: &[u8], starts: &[u32], ends: &[u32]) -> Result<(), Refusal>
    requires { length starts.now ≤ 255 }
    ensures { refusal_of result ≡ fault_cause (name_fault s text.now starts.now ends.now) (length starts.now) }
{
    for k in 1..starts.len() + 1 {
        if let Some(number) = name_fault(s, text, starts, ends, k) {
            return Err(Refusal {
                number,
                place: k as u32,
            });
        }
    }
    Ok(())
}

// The largest number of an end.
#[tactic(auto, unfolding(crate::specs::Checks::most_end))]
fn most_end(names: usize) -> usize
    ensures { result ≡ most_end names }
{
    if names == 0 { 255 } else { names }
}

// Whether an end is 0 or above the largest.
#[tactic(auto, unfolding(crate::specs::Checks::bad_end))]
fn bad_end(most: usize, v: u8) -> bool
    ensures { result ≡ bad_end most v }
{
    v == 0 || most < v as usize
}

// Whether an end of a row is.
fn bad_ends(most: usize, a: u8, b: u8) -> bool
    ensures { result ≡ (bad_end most a || bad_end most b) }
{
    bad_end(most, a) || bad_end(most, b)
}

// Whether bytes are a word that opens a line of another kind.
#[tactic(auto, unfolding(crate::specs::Checks::opens_other, stp_words::specs::Bytes::bytes))]
fn is_other(w: &[u8]) -> bool
    ensures { result ≡ opens_other w.now }
{
    same(w, b"struck") || same(w, b"junctions")
}

// Whether a junction has such a name.
fn opens_other(text: &[u8], starts: &[u32], ends: &[u32], v: u8) -> bool
    ensures { result ≡ opens_other (name_if text.now starts.now ends.now v) }
{
    if starts.is_empty() {
        return false;
    }
    let k = (v as usize).saturating_sub(1);
    let from = place(starts, k);
    let high = place(ends, k).min(text.len());
    if from < high {
        return is_other(&text[from..high]);
    }
    false
}

// What is wrong with row i: its cause, if it has one.
fn row_fault(
    text: &[u8],
    starts: &[u32],
    ends: &[u32],
    words: &[u64],
    left: &[u8],
    right: &[u8],
    weight: &[u8],
    mark: &[u8],
    i: usize,
) -> Option<u32>
    ensures { result ≡ fault_of (row_fault (sheet_of text.now starts.now ends.now words.now left.now right.now weight.now mark.now) i) }
{
    let most = most_end(starts.len());
    let l = row_byte(left, i);
    let r = row_byte(right, i);
    if bad_ends(most, l, r) {
        return Some(Cause::BadEnd as u32);
    }
    if is_struck(words, i) {
        return None;
    }
    if 1 < row_byte(mark, i) {
        return Some(Cause::BadMark as u32);
    }
    if opens_other(text, starts, ends, l) {
        return Some(Cause::NotTrench as u32);
    }
    None
}

// The rows' causes, of at most 1,024: that of the first row that has one.
fn rows_check(
    text: &[u8],
    starts: &[u32],
    ends: &[u32],
    words: &[u64],
    left: &[u8],
    right: &[u8],
    weight: &[u8],
    mark: &[u8],
) -> Result<(), Refusal>
    requires { length left.now ≤ 1024 }
    ensures { refusal_of result ≡ fault_cause (row_fault (sheet_of text.now starts.now ends.now words.now left.now right.now weight.now mark.now)) (length left.now) }
{
    for i in 1..left.len() + 1 {
        if let Some(number) = row_fault(text, starts, ends, words, left, right, weight, mark, i) {
            return Err(Refusal {
                number,
                place: i as u32,
            });
        }
    }
    Ok(())
}

// Whether row i is in use and past the last row.
#[tactic(auto, unfolding(crate::specs::Checks::past_row))]
fn past_row(words: &[u64], m: usize, i: usize) -> bool
    ensures { result ≡ past_row words.now m i }
{
    m < i && slice_words::row_in(words, i)
}

// The first such row, 0 where there is none.
fn first_past(words: &[u64], m: usize) -> u32
    ensures { result ≡ uppermost max_rows (past_row words.now m) }
{
    for i in 1..ROWS + 1 {
        if past_row(words, m, i) {
            return i as u32;
        }
    }
    0
}

// Whether a column is not as long as m rows, or what else is lent has another length.
#[tactic(auto, using(crate::proofs::Laws::four_times), unfolding(crate::specs::Checks::wrong_columns))]
fn wrong_columns(
    m: usize,
    right: usize,
    weight: usize,
    mark: usize,
    words: usize,
    starts: usize,
    ends: usize,
) -> bool
    ensures { result ≡ wrong_columns m right weight mark words starts ends }
{
    right != m
        || weight % 4 != 0
        || weight / 4 != m
        || mark != m
        || words != WORDS
        || ends != starts
}

// The causes of the lengths, in their order.
fn sizes_check(s: u8, m: usize, wrong: bool, past: u32, names: usize) -> Result<(), Refusal>
    ensures { refusal_of result ≡ size_cause s m wrong past names }
{
    refused_if(ROWS < m, Cause::TooManyRows as u32)?;
    refused_if(wrong, Cause::BadLengths as u32)?;
    refused_at(Cause::BadLengths as u32, past)?;
    refused_if(NAMES < names, Cause::TooManyNames as u32)?;
    refused_if(!is_separator(s), Cause::BadSeparator as u32)
}

// The longest name, at least 3.
fn longest(starts: &[u32], ends: &[u32]) -> usize
    ensures { (result ≡ longest_to starts.now ends.now (length starts.now)) × (result ≤ 4294967295) }
{
    let mut most: usize = 3;
    for k in 0..starts.len() {
        most = most.max(entry(ends, k).saturating_sub(entry(starts, k)) as usize);
    }
    most
}

// The bytes that are enough for 1,024 rows.
fn needed(longest: usize) -> usize
    requires { longest ≤ 4294967295 }
    ensures { result ≡ room max_rows longest }
{
    43 + 1024 * (23 + 2 * longest)
}

// The causes of the room.
fn room_check(longest: usize, size: usize) -> Result<(), Refusal>
    requires { longest ≤ 4294967295 }
    ensures { refusal_of result ≡ room_cause longest size }
{
    let need = needed(longest);
    if MAX_TEXT < need {
        return Err(Refusal {
            number: Cause::BadText as u32,
            place: MAX_TEXT as u32,
        });
    }
    if size < need {
        return Err(Refusal {
            number: Cause::ShortText as u32,
            place: need as u32,
        });
    }
    Ok(())
}

// All causes, in their order: the lengths, the names, the rows, the room in a column of so many bytes.
pub fn write_check(
    s: u8,
    text: &[u8],
    starts: &[u32],
    ends: &[u32],
    words: &[u64],
    left: &[u8],
    right: &[u8],
    weight: &[u8],
    mark: &[u8],
    size: usize,
) -> Result<(), Refusal>
    ensures { refusal_of result ≡ write_cause s (sheet_of text.now starts.now ends.now words.now left.now right.now weight.now mark.now) size }
{
    let m = left.len();
    let wrong = wrong_columns(
        m,
        right.len(),
        weight.len(),
        mark.len(),
        words.len(),
        starts.len(),
        ends.len(),
    );
    sizes_check(s, m, wrong, first_past(words, m), starts.len())?;
    names_check(s, text, starts, ends)?;
    rows_check(text, starts, ends, words, left, right, weight, mark)?;
    room_check(longest(starts, ends), size)
}
