// The writer of table files: a table in lent columns as a text, made in a lent column of bytes. That what is written reads back is specs/RoundTrip.antt.

#![tactic(auto)]

ghost use Rattle.std.specs.Prelude.{not, ◌≡◌, ◌++◌, ◌-◌, ◌≤◌, min, length};
ghost use Rattle.decimal.specs.Puts.{Puts};
ghost use Rattle.file_spec.specs.Line.{marked};
ghost use Rattle.file_spec.specs.Writer.{end_bytes};
ghost use Rattle.file_text.specs.Steps.Spans.{part};
ghost use Rattle.file_writer.specs.Columns.{sheet_of, name_of, end_in, trench_of, trenches_of};
ghost use Rattle.file_writer.specs.Forms.{headed, form_text};
ghost use Rattle.file_writer.specs.Steps.Rows.{entry_at, word_put, header_put, count_put, struck_put, ends_put, rest_put, line_put, rows_put};
ghost use Rattle.rowset.specs.Bytes.{in_row};
ghost use Rattle.rowset.specs.Integers.{signed};
ghost use Rattle.rowset.specs.Words.{in_words};

use decimal::{put_byte, put_natural, put_price, put_text};

// The byte LF.
const LINE_END: u8 = 10;

// The number at position k of a column, 0 past its end.
#[tactic(auto, unfolding(crate::specs::Steps::Rows::entry_at))]
pub fn entry(column: &[u32], k: usize) -> u32
    ensures { result ≡ entry_at column.now k }
{
    column.get(k).copied().unwrap_or(0)
}

// The same as a place.
pub fn place(column: &[u32], k: usize) -> usize
    ensures { result ≡ entry_at column.now k }
{
    entry(column, k) as usize
}

// The bytes of a text from one place up to another; what is past its end is not there.
fn put_part(out: &mut [u8], at: usize, text: &[u8], from: usize, to: usize) -> usize
    requires { at ≤ length out.old }
    ensures { Puts out.old at (part text.now from to) out.new result }
{
    let high = to.min(text.len());
    if from < high {
        return put_text(out, at, &text[from..high]);
    }
    at
}

// The name of a junction, counted from 1.
fn put_name(out: &mut [u8], at: usize, text: &[u8], starts: &[u32], ends: &[u32], v: usize) -> usize
    requires { at ≤ length out.old }
    ensures { Puts out.old at (name_of text.now starts.now ends.now v) out.new result }
{
    let k = v.saturating_sub(1);
    put_part(out, at, text, place(starts, k), place(ends, k))
}

// A junction, as its number, or as its name where names are lent.
fn put_junction(
    out: &mut [u8],
    at: usize,
    text: &[u8],
    starts: &[u32],
    ends: &[u32],
    v: u8,
) -> usize
    requires { at ≤ length out.old }
    ensures { Puts out.old at (end_bytes (end_in text.now starts.now ends.now v)) out.new result }
{
    if starts.len() == 0 {
        return put_natural(out, at, u64::from(v));
    }
    put_name(out, at, text, starts, ends, v as usize)
}

// The two ends of row i, each with the byte after it.
fn put_ends(
    out: &mut [u8],
    at: usize,
    s: u8,
    text: &[u8],
    starts: &[u32],
    ends: &[u32],
    left: &[u8],
    right: &[u8],
    i: usize,
) -> usize
    requires { at ≤ length out.old }
    ensures { Puts out.old at (ends_put s (end_in text.now starts.now ends.now (in_row 1 left.now i)) (end_in text.now starts.now ends.now (in_row 1 right.now i))) out.new result }
{
    let a = table_checks::row_byte(left, i);
    let b = table_checks::row_byte(right, i);
    let first = put_junction(out, at, text, starts, ends, a);
    let second = put_byte(out, first, s);
    let third = put_junction(out, second, text, starts, ends, b);
    put_byte(out, third, s)
}

// A word, and the byte after it.
fn put_word(out: &mut [u8], at: usize, word: &[u8], s: u8) -> usize
    ensures { Puts out.old at (word_put word.now s) out.new result }
{
    let next = put_text(out, at, word);
    put_byte(out, next, s)
}

// The word before a struck trench.
fn put_struck(out: &mut [u8], at: usize, struck: bool, s: u8) -> usize
    requires { at ≤ length out.old }
    ensures { Puts out.old at (struck_put struck s) out.new result }
{
    if struck {
        return put_word(out, at, b"struck", s);
    }
    at
}

// The mark of a trench: none where it is struck.
#[tactic(auto, unfolding(file_spec::specs::Line::marked))]
fn mark_unless(struck: bool, m: u8) -> u64
    ensures { result ≡ marked struck m }
{
    if struck { 0 } else { u64::from(m) }
}

// The price of row i and its mark.
fn put_rest(
    out: &mut [u8],
    at: usize,
    s: u8,
    weight: &[u8],
    mark: &[u8],
    struck: bool,
    i: usize,
) -> usize
    ensures { Puts out.old at (rest_put s (signed (in_row 4 weight.now i)) (marked struck (in_row 1 mark.now i))) out.new result }
{
    let w = table_checks::row_weight(weight, i);
    let m = mark_unless(struck, table_checks::row_byte(mark, i));
    let first = put_price(out, at, w);
    let second = put_byte(out, first, s);
    let third = put_natural(out, second, m);
    put_byte(out, third, LINE_END)
}

// Whether row i is struck: it is not in use.
pub fn is_struck(words: &[u64], i: usize) -> bool
    ensures { result ≡ not (in_words words.now i) }
{
    !slice_words::row_in(words, i)
}

// The line of row i.
fn put_row(
    out: &mut [u8],
    at: usize,
    s: u8,
    text: &[u8],
    starts: &[u32],
    ends: &[u32],
    words: &[u64],
    left: &[u8],
    right: &[u8],
    weight: &[u8],
    mark: &[u8],
    i: usize,
) -> usize
    requires { at ≤ length out.old }
    ensures { Puts out.old at (line_put s (trench_of (sheet_of text.now starts.now ends.now words.now left.now right.now weight.now mark.now) i)) out.new result }
{
    let struck = is_struck(words, i);
    let word = put_struck(out, at, struck, s);
    let both = put_ends(out, word, s, text, starts, ends, left, right, i);
    put_rest(out, both, s, weight, mark, struck, i)
}

// The lines of the first m rows.
fn put_rows(
    out: &mut [u8],
    at: usize,
    s: u8,
    m: usize,
    text: &[u8],
    starts: &[u32],
    ends: &[u32],
    words: &[u64],
    left: &[u8],
    right: &[u8],
    weight: &[u8],
    mark: &[u8],
) -> usize
    requires { at ≤ length out.old }
    ensures { Puts out.old at (rows_put (λ i. line_put s (trench_of (sheet_of text.now starts.now ends.now words.now left.now right.now weight.now mark.now) i)) m) out.new result }
{
    let mut next = at;
    for k in 0..m {
        next = put_row(
            out,
            next,
            s,
            text,
            starts,
            ends,
            words,
            left,
            right,
            weight,
            mark,
            k + 1,
        );
    }
    next
}

// The header, where there is one.
fn put_header(out: &mut [u8], header: bool, s: u8) -> usize
    ensures { Puts out.old 0 (header_put header s) out.new result }
{
    if header {
        let first = put_word(out, 0, b"left", s);
        let second = put_word(out, first, b"right", s);
        let third = put_word(out, second, b"price", s);
        return put_word(out, third, b"mark", LINE_END);
    }
    0
}

// The line that says how many junctions there are.
fn put_count(out: &mut [u8], at: usize, s: u8, n: u64) -> usize
    ensures { Puts out.old at (count_put s n) out.new result }
{
    let word = put_word(out, at, b"junctions", s);
    let number = put_natural(out, word, n);
    put_byte(out, number, LINE_END)
}

// Whether a text has a header: where blanks do not part the fields.
#[tactic(auto, unfolding(crate::specs::Forms::headed))]
fn has_header(s: u8) -> bool
    ensures { result ≡ headed s }
{
    s != b' '
}

// A table of n junctions and m rows, whose fields the byte s parts.
pub fn write_table(
    out: &mut [u8],
    s: u8,
    n: u64,
    m: usize,
    text: &[u8],
    starts: &[u32],
    ends: &[u32],
    words: &[u64],
    left: &[u8],
    right: &[u8],
    weight: &[u8],
    mark: &[u8],
) -> usize
    ensures { Puts out.old 0 (form_text s n (trenches_of (sheet_of text.now starts.now ends.now words.now left.now right.now weight.now mark.now) m)) out.new result }
{
    let header = has_header(s);
    let first = put_header(out, header, s);
    let second = put_count(out, first, s, n);
    put_rows(
        out, second, s, m, text, starts, ends, words, left, right, weight, mark,
    )
}
