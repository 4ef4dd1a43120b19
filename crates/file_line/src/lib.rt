// A line of a table file: what it says, whatever the other lines say.

#![tactic(auto)]

ghost use Rattle.std.specs.Prelude.{◌≡◌, not, ◌&&◌, ◌||◌, List, ℕ, ◌≤◌, length, drop, IfSome};
ghost use Rattle.std.specs.List.{list_any, list_all};
ghost use Rattle.file_spec.specs.Names.{is_letter, of_names, is_name};
ghost use Rattle.file_spec.specs.Pieces.{Piece};
ghost use Rattle.file_text.specs.Steps.Spans.{part, piece_at, FieldsRead};
ghost use Rattle.file_spec.specs.Line.{end_of, mark_of, marked, row, fielded, count, line_of};
ghost use Rattle.stp_words.specs.Names.{same};
ghost use Rattle.stp_words.specs.Bytes.{bytes};
ghost use Rattle.file_line.specs.Steps.Seen.{end_seen, mark_seen, line_in, Lies, GoodEnd, Good};

use file_text::{Fields, Part, fields_of};
use refusal::Cause;
use stp_words::{number_of, price_of, same};

// Why a text cannot be read as a table: the cause's number, and the place of a byte, counted from 0.
#[derive(Clone, Copy)]
pub struct ReadError {
    pub number: u32,
    pub place: usize,
}

impl ReadError {
    pub fn at(number: u32, place: usize) -> ReadError
        ensures { result ≡ record { number = number; place = place } }
    {
        ReadError { number, place }
    }
}

// An end of a trench: a junction's number, from 1 to 255, or the part of the text that is its name.
#[derive(Clone, Copy)]
pub enum End {
    Number(u8),
    Name(Part),
}

// A trench: whether it is struck, where its line's first field stands, its ends and where they stand, its price, and its mark, 0 or 1.
#[derive(Clone, Copy)]
pub struct Trench {
    pub struck: bool,
    pub at: usize,
    pub left_at: usize,
    pub left: End,
    pub right_at: usize,
    pub right: End,
    pub price: i32,
    pub mark: u8,
}

// What a line says: nothing, the number of junctions and where it stands, or a trench.
#[derive(Clone, Copy)]
pub enum Line {
    Nothing,
    Counting(u32, usize),
    Laid(Trench),
}

// Whether a byte is a letter's: A to Z, a to z, or one of another alphabet.
#[tactic(auto, unfolding(stp_words::specs::Bytes::within, file_spec::specs::Names::is_letter))]
pub fn is_letter(b: u8) -> bool
    ensures { result ≡ is_letter b }
{
    matches!(b, b'A'..=b'Z' | b'a'..=b'z' | 128..)
}

// Whether a name may hold a byte: no control byte and no quote.
#[tactic(auto, unfolding(file_spec::specs::Names::of_names))]
pub fn of_names(b: u8) -> bool
    ensures { result ≡ of_names b }
{
    32 <= b && b != b'"' && b != 127
}

// Whether bytes have a letter.
pub fn any_letter(w: &[u8]) -> bool
    ensures { result ≡ list_any is_letter w.now }
{
    w.iter().any(|b| is_letter(*b))
}

// Whether a name may hold each byte.
fn all_of_names(w: &[u8]) -> bool
    ensures { result ≡ list_all of_names w.now }
{
    w.iter().all(|b| of_names(*b))
}

// Whether a field is a name: it has a letter, and no control byte and no quote.
#[tactic(auto, using(crate::proofs::Naming::named))]
fn is_name(w: &[u8]) -> bool
    ensures { result ≡ is_name w.now }
{
    all_of_names(w) && any_letter(w)
}

// The end that a part of the text is: a number from 1 to 255, or a name.
fn end_of(text: &[u8], p: Part) -> Option<End>
    requires { (p.from ≤ p.to) × (p.to ≤ length text.now) }
    ensures value { end_seen text.now result ≡ end_of (part text.now p.from p.to) }
    ensures good { GoodEnd text.now p.from result }
{
    let w = &text[p.from..p.to];
    match number_of(w) {
        Some(v) => {
            if v < 1 || 255 < v {
                return None;
            }
            Some(End::Number(v as u8))
        }
        None => {
            if is_name(w) {
                return Some(End::Name(p));
            }
            None
        }
    }
}

#[tactic(auto, unfolding(stp_words::specs::Bytes::bytes))]
fn is_yes(w: &[u8]) -> bool
    ensures { result ≡ (same w.now (bytes "x") || same w.now (bytes "yes") || same w.now (bytes "true")) }
{
    same(w, b"x") || same(w, b"yes") || same(w, b"true")
}

#[tactic(auto, unfolding(stp_words::specs::Bytes::bytes))]
fn is_no(w: &[u8]) -> bool
    ensures { result ≡ (same w.now (bytes "no") || same w.now (bytes "false")) }
{
    same(w, b"no") || same(w, b"false")
}

// The mark that a word is: 1, x, yes, true; 0, no, false.
fn mark_of(w: &[u8]) -> Option<u8>
    ensures value { (at : ℕ) → mark_seen result ≡ mark_of (record { at = at; letters = w.now }) }
    ensures small { IfSome result (λ v. v ≤ 1) }
{
    match number_of(w) {
        Some(v) => {
            if 1 < v {
                return None;
            }
            Some(v as u8)
        }
        None => {
            if is_yes(w) {
                return Some(1);
            }
            if is_no(w) {
                return Some(0);
            }
            None
        }
    }
}

// The mark of a trench: a struck one is not in the plan.
#[tactic(auto, unfolding(file_spec::specs::Line::marked))]
fn mark_unless(struck: bool, mark: u8) -> u8
    ensures { result ≡ marked struck mark }
{
    if struck { 0 } else { mark }
}

// Whether a line is a header: it is not struck and its third field is the word price.
#[tactic(auto, unfolding(stp_words::specs::Bytes::bytes))]
fn is_header(struck: bool, third: &[u8]) -> bool
    ensures { result ≡ (not struck && same third.now (bytes "price")) }
{
    !struck && same(third, b"price")
}

// A row: its ends, its price, and its mark or none.
fn row(
    text: &[u8],
    struck: bool,
    at: usize,
    a: Part,
    b: Part,
    c: Part,
    mark: Option<u8>,
    mark_at: usize,
) -> Result<Line, ReadError>
    requires from_le_to { (a.from ≤ a.to) × (a.to ≤ length text.now) }
    requires second { (b.from ≤ b.to) × (b.to ≤ length text.now) }
    requires third { (c.from ≤ c.to) × (c.to ≤ length text.now) }
    requires first { at ≤ length text.now }
    requires small { IfSome mark (λ v. v ≤ 1) }
    ensures result_value { line_in text.now result ≡ row struck at (piece_at text.now a.from a.to) (piece_at text.now b.from b.to) (piece_at text.now c.from c.to) (mark_seen mark) mark_at }
    ensures good { Good text.now result }
{
    let third = &text[c.from..c.to];
    if is_header(struck, third) {
        return Ok(Line::Nothing);
    }
    let Some(left) = end_of(text, a) else {
        return Err(ReadError::at(Cause::NotJunction as u32, a.from));
    };
    let Some(right) = end_of(text, b) else {
        return Err(ReadError::at(Cause::NotJunction as u32, b.from));
    };
    let Some(price) = price_of(third) else {
        return Err(ReadError::at(Cause::NotPrice as u32, c.from));
    };
    let Some(m) = mark else {
        return Err(ReadError::at(Cause::NotMark as u32, mark_at));
    };
    Ok(Line::Laid(Trench {
        struck,
        at,
        left_at: a.from,
        left,
        right_at: b.from,
        right,
        price,
        mark: mark_unless(struck, m),
    }))
}

// The fields of a trench, after `skip` others: three or four.
fn trench_line(
    text: &[u8],
    struck: bool,
    at: usize,
    x: Fields,
    skip: usize,
) -> Result<Line, ReadError>
    requires skip_bound { (skip ≤ 1) × (at ≤ length text.now) }
    requires lies { Lies text.now x.count x.parts }
    ensures result_value { (fs : List Piece) → FieldsRead text.now fs x.count x.parts → line_in text.now result ≡ fielded struck at (drop skip fs) }
    ensures good { Good text.now result }
{
    if x.count < skip + 3 || skip + 4 < x.count {
        return Err(ReadError::at(Cause::NotTrench as u32, at));
    }
    let a = x.parts[skip];
    let b = x.parts[skip + 1];
    let c = x.parts[skip + 2];
    if x.count == skip + 3 {
        return row(text, struck, at, a, b, c, Some(0), c.from);
    }
    let d = x.parts[skip + 3];
    let mark = mark_of(&text[d.from..d.to]);
    row(text, struck, at, a, b, c, mark, d.from)
}

// The fields of a line junctions N.
fn count_line(text: &[u8], at: usize, x: Fields) -> Result<Line, ReadError>
    requires { Lies text.now x.count x.parts }
    ensures result_value { (fs : List Piece) → FieldsRead text.now fs x.count x.parts → line_in text.now result ≡ count at (drop 1 fs) }
    ensures good { Good text.now result }
{
    if x.count != 2 {
        return Err(ReadError::at(Cause::NotCount as u32, at));
    }
    let n = x.parts[1];
    match number_of(&text[n.from..n.to]) {
        Some(v) => Ok(Line::Counting(v, at)),
        None => Err(ReadError::at(Cause::NotCount as u32, at)),
    }
}

// A line: what its fields say. What is past the text's end is not there.
pub fn line_of(text: &[u8], from: usize, to: usize) -> Result<Line, ReadError>
    ensures result_value { line_in text.now result ≡ line_of (piece_at text.now from to) }
    ensures good { Good text.now result }
{
    let x = fields_of(text, from, to);
    if x.count == 0 {
        return Ok(Line::Nothing);
    }
    let first = x.parts[0];
    let word = &text[first.from..first.to];
    if same(word, b"struck") {
        return trench_line(text, true, first.from, x, 1);
    }
    if same(word, b"junctions") {
        return count_line(text, first.from, x);
    }
    trench_line(text, false, first.from, x, 0)
}
