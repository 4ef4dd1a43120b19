// The doors of table files for C: a text read into lent columns with a lent answer of sixteen bytes, and the line of a place.
// If the lent answer has not sixteen bytes the reader returns 0 and writes nothing anywhere; else it returns 1.

#![tactic(auto)]

ghost use Rattle.std.specs.Prelude.{Bool, ◌≡◌, min, ◌≤◌, ◌<◌, eqb, length};
ghost use Rattle.answer.specs.Records.{fields_of};
ghost use Rattle.star_spec.specs.Door.{door_returns};
ghost use Rattle.file_spec.specs.Door.{file_fields, file_door, file_door_lent};
ghost use Rattle.file_spec.specs.Places.{line_after, line_at};
ghost use Rattle.file_door_meaning.specs.Bytes.{ReadTableCall};
ghost use Rattle.file.specs.Answers.{answer_of, lent_of};

use answer::{Record, write_answer};
use file::Sizes;
use file_line::ReadError;

// The fields of what was read: the number of names and of rows stand where a verdict has its rows, n or the refusal's place where it has its weight.
pub fn of_taken(x: Result<Sizes, ReadError>) -> Record
    ensures { fields_of result ≡ file_fields (answer_of x) }
{
    match x {
        Ok(s) => Record {
            kind: 1,
            number: 0,
            out: s.names,
            into: s.rows,
            only: 0,
            amount: s.n as u64,
        },
        Err(e) => Record {
            kind: 0,
            number: e.number,
            out: 0,
            into: 0,
            only: 0,
            amount: e.place as u64,
        },
    }
}

// A table file through the door: the columns are written where the text is read, and stay as they are otherwise.
// `means` says what the bytes and the columns are worth, from the text to the trees that star_work_cst and star_work_mst1 then tell of.
#[unsafe(no_mangle)]
pub extern "C" fn star_read_table(
    text: &[u8],
    words: &mut [u64],
    left: &mut [u8],
    right: &mut [u8],
    weight: &mut [u8],
    mark: &mut [u8],
    starts: &mut [u32],
    ends: &mut [u32],
    rows: &mut [u32],
    answer: &mut [u8],
) -> u32
    ensures returned { result ≡ door_returns answer.old }
    ensures answered { answer.new ≡ file_door text.now (lent_of left.old right.old weight.old mark.old words.old starts.old ends.old rows.old) answer.old }
    ensures lent { lent_of left.new right.new weight.new mark.new words.new starts.new ends.new rows.new ≡ file_door_lent text.now (lent_of left.old right.old weight.old mark.old words.old starts.old ends.old rows.old) answer.old }
    ensures means { ReadTableCall text.now (lent_of left.old right.old weight.old mark.old words.old starts.old ends.old rows.old) (lent_of left.new right.new weight.new mark.new words.new starts.new ends.new rows.new) answer.old answer.new result }
{
    if answer.len() != 16 {
        return 0;
    }
    let t = file::read_table(text, left, right, weight, mark, words, starts, ends, rows);
    let x = of_taken(t);
    write_answer(answer, x);
    1
}

// The line after a byte: one more after CR, and after LF where the byte before it was not CR.
fn line_after(after_cr: bool, line: u64, b: u8) -> u64
    requires { line < 18446744073709551615 }
    ensures { result ≡ line_after after_cr line b }
{
    if b == 13 {
        return line + 1;
    }
    if b != 10 {
        return line;
    }
    if after_cr { line } else { line + 1 }
}

// How many bytes stand before a place in a text of this length.
fn bytes_before(place: u32, len: usize) -> usize
    ensures { (result ≡ min place len) × (result ≤ 4294967295) }
{
    (place as usize).min(len)
}

// The line of a place, counted from 1; a place past the text's end is in its last line.
#[unsafe(no_mangle)]
pub extern "C" fn star_line_of(text: &[u8], place: u32) -> u64
    ensures { result ≡ line_at text.now place }
{
    let end = bytes_before(place, text.len());
    let mut line = 1;
    let mut after = false;
    for k in 0..end {
        let b = text[k];
        line = line_after(after, line, b);
        after = b == 13;
    }
    line
}
