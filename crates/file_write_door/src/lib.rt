// The door that writes table files for C: a table in lent columns, with names that are parts of a lent text, as a text in lent bytes, with a lent answer of sixteen bytes.
// If the lent answer has not sixteen bytes the call returns 0 and writes nothing anywhere; else it returns 1.

#![tactic(auto)]

ghost use Rattle.std.specs.Prelude.{◌≡◌, length};
ghost use Rattle.answer.specs.Records.{fields_of};
ghost use Rattle.file_write_checks.specs.Checks.{write_cause};
ghost use Rattle.file_writer.specs.Columns.{sheet_of};
ghost use Rattle.star_spec.specs.Door.{door_returns};
ghost use Rattle.file_write_door.specs.Bytes.{WriteCall};
ghost use Rattle.file_write_door.specs.Door.{sheet_text, write_door, write_door_out};
ghost use Rattle.file_write_door.specs.Steps.Wrote.{Wrote, told_fields};

use answer::{Record, well_lent, write_answer};
use refusal::Refusal;

// The text of a table, where nothing is refused.
fn write_sheet(
    out: &mut [u8],
    s: u8,
    n: u32,
    text: &[u8],
    starts: &[u32],
    ends: &[u32],
    words: &[u64],
    left: &[u8],
    right: &[u8],
    weight: &[u8],
    mark: &[u8],
) -> Result<usize, Refusal>
    ensures { let x = sheet_of text.now starts.now ends.now words.now left.now right.now weight.now mark.now in
        Wrote (write_cause s x (length out.old)) (sheet_text s n x) out.old out.new result }
{
    file_write_checks::write_check(
        s,
        text,
        starts,
        ends,
        words,
        left,
        right,
        weight,
        mark,
        out.len(),
    )?;
    let size = file_writer::write_table(
        out,
        s,
        n as u64,
        left.len(),
        text,
        starts,
        ends,
        words,
        left,
        right,
        weight,
        mark,
    );
    Ok(size)
}

// The fields of what was written: its length or the refusal's place stands where a verdict has its weight.
fn of_written(w: Result<usize, Refusal>) -> Record
    ensures { fields_of result ≡ told_fields w }
{
    match w {
        Ok(size) => Record {
            kind: 1,
            number: 0,
            out: 0,
            into: 0,
            only: 0,
            amount: size as u64,
        },
        Err(r) => Record {
            kind: 0,
            number: r.number,
            out: 0,
            into: 0,
            only: 0,
            amount: r.place as u64,
        },
    }
}

// A table file through the door: the lent bytes are written where nothing is refused, and stay as they are otherwise.
// `means` says what the bytes and the text are worth.
#[unsafe(no_mangle)]
pub extern "C" fn star_write_table(
    n: u32,
    words: &[u64],
    left: &[u8],
    right: &[u8],
    weight: &[u8],
    mark: &[u8],
    text: &[u8],
    starts: &[u32],
    ends: &[u32],
    separator: u8,
    out: &mut [u8],
    answer: &mut [u8],
) -> u32
    ensures returned { result ≡ door_returns answer.old }
    ensures answered { let x = sheet_of text.now starts.now ends.now words.now left.now right.now weight.now mark.now in
        answer.new ≡ write_door separator n x out.old answer.old }
    ensures written { let x = sheet_of text.now starts.now ends.now words.now left.now right.now weight.now mark.now in
        out.new ≡ write_door_out separator n x out.old answer.old }
    ensures means { let x = sheet_of text.now starts.now ends.now words.now left.now right.now weight.now mark.now in
        WriteCall separator n x out.old answer.old out.new answer.new result }
{
    if !well_lent(answer) {
        return 0;
    }
    let w = write_sheet(
        out, separator, n, text, starts, ends, words, left, right, weight, mark,
    );
    let x = of_written(w);
    write_answer(answer, x);
    1
}
