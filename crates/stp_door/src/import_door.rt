// The import of an STP text for C.
ghost use Rattle.std.specs.Prelude.{◌≡◌};
ghost use Rattle.answer.specs.Records.{fields_of};
ghost use Rattle.stp_meaning.specs.Bytes.{ImportCall};
ghost use Rattle.star_spec.specs.Door.{door_returns};
ghost use Rattle.stp_spec.specs.Door.{import_fields, import_door, left_door, right_door, weight_door};
ghost use Rattle.stp.specs.Answers.{answer_of};

use answer::{Record, well_lent, write_answer};
use refusal::Refusal;
use stp::Sizes;

// The fields of what was imported: n and m stand where a verdict has its rows, and the refusal's place where it has its weight.
pub fn of_imported(x: Result<Sizes, Refusal>) -> Record
    ensures { fields_of result ≡ import_fields (answer_of x) }
{
    match x {
        Ok(s) => Record {
            kind: 1,
            number: 0,
            out: s.n,
            into: s.m,
            only: 0,
            amount: 0,
        },
        Err(r) => Record {
            kind: 0,
            number: r.number,
            out: 0,
            into: 0,
            only: 0,
            amount: r.place as u64,
        },
    }
}

// The import through the door: the columns are written where the text is taken, and stay as they are otherwise.
// `means` says what the bytes and the columns are worth: what was read is an accepted table.
#[unsafe(no_mangle)]
pub extern "C" fn star_import(
    text: &[u8],
    left: &mut [u8],
    right: &mut [u8],
    weight: &mut [u8],
    answer: &mut [u8],
) -> u32
    ensures returned { result ≡ door_returns answer.old }
    ensures answered { answer.new ≡ import_door text.now left.old right.old weight.old answer.old }
    ensures lefts { left.new ≡ left_door text.now left.old right.old weight.old answer.old }
    ensures rights { right.new ≡ right_door text.now left.old right.old weight.old answer.old }
    ensures weights { weight.new ≡ weight_door text.now left.old right.old weight.old answer.old }
    ensures means { ImportCall text.now left.old right.old weight.old answer.old answer.new left.new right.new weight.new result }
{
    if !well_lent(answer) {
        return 0;
    }
    let i = stp::import(text, left, right, weight);
    let x = of_imported(i);
    write_answer(answer, x);
    1
}
