// Adding a row to a working table for C.
ghost use Rattle.std.specs.Prelude.{◌≡◌};
ghost use Rattle.answer.specs.Records.{fields_of};
ghost use Rattle.change_meaning.specs.Bytes.{AddCall};
ghost use Rattle.star_spec.specs.Door.{door_returns};
ghost use Rattle.change.specs.Answers.{answer_of};
ghost use Rattle.change_spec.specs.Door.{add_fields, add_door, add_door_table};
ghost use Rattle.change_spec.specs.Tables.{working};

use answer::{Record, of_refusal, well_lent, write_answer};
use refusal::Refusal;

// The fields of an add's answer: the new row's position stands where a verdict has its weight.
pub fn of_added(added: Result<u32, Refusal>) -> Record
    ensures { fields_of result ≡ add_fields (answer_of added) }
{
    match added {
        Ok(position) => Record {
            kind: 1,
            number: 0,
            out: 0,
            into: 0,
            only: 0,
            amount: position as u64,
        },
        Err(refusal) => of_refusal(refusal),
    }
}

// Adding a row through the door: a and b are its ends, price the 32 bits of its price. `means` says what the bytes and the table are worth.
#[unsafe(no_mangle)]
pub extern "C" fn star_add(
    words: &mut [u64],
    left: &mut [u8],
    right: &mut [u8],
    weight: &mut [u8],
    numbers: &mut [u32],
    a: u8,
    b: u8,
    price: u32,
    answer: &mut [u8],
) -> u32
    ensures returned { result ≡ door_returns answer.old }
    ensures answered { answer.new ≡ add_door (working words.old left.old right.old weight.old numbers.old) answer.old }
    ensures table { working words.new left.new right.new weight.new numbers.new ≡ add_door_table (working words.old left.old right.old weight.old numbers.old) a b price answer.old }
    ensures means { AddCall (working words.old left.old right.old weight.old numbers.old) a b price answer.old answer.new (working words.new left.new right.new weight.new numbers.new) result }
{
    if !well_lent(answer) {
        return 0;
    }
    let added = change::add_row(words, left, right, weight, numbers, a, b, price);
    write_answer(answer, of_added(added));
    1
}
