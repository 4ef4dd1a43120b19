// The reader of a table file: the lines of a text into the columns of a table.

#![tactic(auto)]

ghost use Rattle.std.specs.Prelude.{◌≡◌, not, ◌&&◌, List, ◌++◌, ℕ, ◌+◌, ◌*◌, ◌≤◌, ◌<◌, eqb, length, take, Ok, OnOk, MatchOption};
ghost use Rattle.star_spec.specs.Door.{bytes_of};
ghost use Rattle.file_text.specs.Steps.Spans.{part, names_of, Within};
ghost use Rattle.file_spec.specs.Reader.{kind_of, met_end, laid, next, read_lines};
ghost use Rattle.file_spec.specs.Pieces.{lines};
ghost use Rattle.file_line.specs.Steps.Seen.{end_in, trench_in, line_in, Lying, Placed, GoodTrench, Good};
ghost use Rattle.file_reader.specs.Steps.State.{EndMet, read_of, resumed, Sized, Sound, Columns, Stored};

use file_line::{End, Line, ReadError, Trench, line_of};
use file_text::{NAMES, line_end, meet};
use refusal::Cause;

// A junction's number, and the number of names.
#[derive(Clone, Copy)]
struct Met {
    number: u8,
    count: usize,
}

// The number of an end: a number's own, or that of a name, which is added where it is new; none where there is no room for it.
fn number_end(
    text: &[u8],
    starts: &mut [u32; NAMES],
    ends: &mut [u32; NAMES],
    count: usize,
    end: End,
) -> Option<Met>
    requires count_bound { (count ≤ 255) × (length text.now ≤ 16777216) × Lying text.now end }
    requires sized { (length starts.old ≡ 255) × (length ends.old ≡ 255) }
    requires kept { Within text.now starts.old ends.old count }
    ensures end_met { (at : ℕ) → Placed at end → let names = names_of text.now starts.old ends.old count in
        MatchOption result (255 < length (met_end (end_in text.now end) names)) (EndMet text.now starts.new ends.new at (end_in text.now end) names (take count starts.old)) }
    ensures sized { (length starts.new ≡ 255) × (length ends.new ≡ 255) }
{
    match end {
        End::Number(number) => Some(Met { number, count }),
        End::Name(p) => {
            let k = meet(text, starts, ends, count, p.from, p.to);
            if k == NAMES {
                return None;
            }
            Some(Met {
                number: k as u8 + 1,
                count: count.max(k + 1),
            })
        }
    }
}

// The kind of an end: 1 a number, 2 a name.
#[tactic(auto, unfolding(file_line::specs::Steps::Seen::end_in, file_spec::specs::Reader::kind_of))]
fn kind_of(end: End) -> u32
    ensures { (text : List ℕ) → result ≡ kind_of (end_in text end) }
{
    match end {
        End::Number(_) => 1,
        End::Name(_) => 2,
    }
}

// Whether the ends so far, if there are any, are of another kind.
fn other_kind(so_far: u32, kind: u32) -> bool
    ensures { result ≡ (not (eqb so_far 0) && not (eqb so_far kind)) }
{
    so_far != 0 && so_far != kind
}

// Row k of the column of weights, counted from 0.
fn store_weight(column: &mut [u8; 4096], k: usize, w: u32)
    requires { (length column.old ≡ 4096) × (k < 1024) }
    ensures column_after { take (4 * (k + 1)) column.new ≡ take (4 * k) column.old ++ bytes_of 4 w }
    ensures sized { length column.new ≡ 4096 }
{
    let at = 4 * k;
    column[at..at + 4].copy_from_slice(&w.to_le_bytes());
}

// A row as it is stored, and the place of its line's first field.
#[derive(Clone, Copy)]
struct Row {
    left: u8,
    right: u8,
    bits: u32,
    mark: u8,
    struck: u8,
    at: usize,
}

// One row more in the five columns.
fn store_row(
    left: &mut [u8; 1024],
    right: &mut [u8; 1024],
    weight: &mut [u8; 4096],
    mark: &mut [u8; 1024],
    struck: &mut [u8; 1024],
    rows: &mut [u32; 1024],
    k: usize,
    row: Row,
)
    requires { (k < 1024) × (row.at ≤ 4294967295) × Columns left.old right.old weight.old mark.old struck.old rows.old }
    ensures stored { Stored left.old right.old weight.old mark.old struck.old rows.old left.new right.new weight.new mark.new struck.new rows.new k row }
    ensures sized { Columns left.new right.new weight.new mark.new struck.new rows.new }
{
    left[k] = row.left;
    right[k] = row.right;
    store_weight(weight, k, row.bits);
    mark[k] = row.mark;
    struck[k] = row.struck;
    rows[k] = row.at as u32;
}

// One trench more.
fn lay(
    text: &[u8],
    t: Trench,
    found: &mut [u32; 5],
    starts: &mut [u32; NAMES],
    ends: &mut [u32; NAMES],
    left: &mut [u8; 1024],
    right: &mut [u8; 1024],
    weight: &mut [u8; 4096],
    mark: &mut [u8; 1024],
    struck: &mut [u8; 1024],
    rows: &mut [u32; 1024],
) -> Result<(), ReadError>
    requires text_len_bound { (length text.now ≤ 16777216) × GoodTrench text.now t }
    requires sized { Sized found.old starts.old ends.old × Columns left.old right.old weight.old mark.old struck.old rows.old }
    requires sound { Sound text.now found.old starts.old ends.old }
    ensures t_value { laid (read_of text.now found.old starts.old ends.old left.old right.old weight.old mark.old struck.old rows.old) (trench_in text.now t) ≡ resumed result (read_of text.now found.new starts.new ends.new left.new right.new weight.new mark.new struck.new rows.new) }
    ensures sized { Sized found.new starts.new ends.new × Columns left.new right.new weight.new mark.new struck.new rows.new }
    ensures sound { OnOk result (Sound text.now found.new starts.new ends.new) }
{
    let a = kind_of(t.left);
    let b = kind_of(t.right);
    if other_kind(found[0], a) {
        return Err(ReadError::at(Cause::MixedNames as u32, t.left_at));
    }
    if a != b {
        return Err(ReadError::at(Cause::MixedNames as u32, t.right_at));
    }
    let m = found[2] as usize;
    if 1024 <= m {
        return Err(ReadError::at(Cause::TooManyRows as u32, t.at));
    }
    let Some(x) = number_end(text, starts, ends, found[1] as usize, t.left) else {
        return Err(ReadError::at(Cause::TooManyNames as u32, t.left_at));
    };
    let Some(y) = number_end(text, starts, ends, x.count, t.right) else {
        return Err(ReadError::at(Cause::TooManyNames as u32, t.right_at));
    };
    let row = Row {
        left: x.number,
        right: y.number,
        bits: t.price.cast_unsigned(),
        mark: t.mark,
        struck: u8::from(t.struck),
        at: t.at,
    };
    store_row(left, right, weight, mark, struck, rows, m, row);
    found[0] = a;
    found[1] = y.count as u32;
    found[2] = m as u32 + 1;
    Ok(())
}

// What a line says.
fn take_line(
    text: &[u8],
    l: Line,
    found: &mut [u32; 5],
    starts: &mut [u32; NAMES],
    ends: &mut [u32; NAMES],
    left: &mut [u8; 1024],
    right: &mut [u8; 1024],
    weight: &mut [u8; 4096],
    mark: &mut [u8; 1024],
    struck: &mut [u8; 1024],
    rows: &mut [u32; 1024],
) -> Result<(), ReadError>
    requires text_len_bound { (length text.now ≤ 16777216) × Good text.now (Ok l) }
    requires sized { Sized found.old starts.old ends.old × Columns left.old right.old weight.old mark.old struck.old rows.old }
    requires sound { Sound text.now found.old starts.old ends.old }
    ensures l_value { next (read_of text.now found.old starts.old ends.old left.old right.old weight.old mark.old struck.old rows.old) (line_in text.now (Ok l)) ≡ resumed result (read_of text.now found.new starts.new ends.new left.new right.new weight.new mark.new struck.new rows.new) }
    ensures sized { Sized found.new starts.new ends.new × Columns left.new right.new weight.new mark.new struck.new rows.new }
    ensures sound { OnOk result (Sound text.now found.new starts.new ends.new) }
{
    match l {
        Line::Nothing => Ok(()),
        Line::Counting(v, at) => {
            if found[3] == 1 {
                return Err(ReadError::at(Cause::NotCount as u32, at));
            }
            found[3] = 1;
            found[4] = v;
            Ok(())
        }
        Line::Laid(t) => lay(
            text, t, found, starts, ends, left, right, weight, mark, struck, rows,
        ),
    }
}

// The lines of a text from a place on.
pub fn read_lines(
    text: &[u8],
    from: usize,
    found: &mut [u32; 5],
    starts: &mut [u32; NAMES],
    ends: &mut [u32; NAMES],
    left: &mut [u8; 1024],
    right: &mut [u8; 1024],
    weight: &mut [u8; 4096],
    mark: &mut [u8; 1024],
    struck: &mut [u8; 1024],
    rows: &mut [u32; 1024],
) -> Result<(), ReadError>
    requires text_len_bound { (length text.now ≤ 16777216) × (from ≤ length text.now) }
    requires sized { Sized found.old starts.old ends.old × Columns left.old right.old weight.old mark.old struck.old rows.old }
    requires sound { Sound text.now found.old starts.old ends.old }
    ensures text_value { read_lines (read_of text.now found.old starts.old ends.old left.old right.old weight.old mark.old struck.old rows.old) (lines from (part text.now from (length text.now))) ≡ resumed result (read_of text.now found.new starts.new ends.new left.new right.new weight.new mark.new struck.new rows.new) }
    ensures sized { Sized found.new starts.new ends.new × Columns left.new right.new weight.new mark.new struck.new rows.new }
    ensures sound { OnOk result (Sound text.now found.new starts.new ends.new) }
{
    let mut at = from;
    loop {
        let e = line_end(text, at);
        let l = line_of(text, at, e)?;
        take_line(
            text, l, found, starts, ends, left, right, weight, mark, struck, rows,
        )?;
        if e == text.len() {
            return Ok(());
        }
        at = e + 1;
    }
}
