// The sixteen bytes of an answer, written in one place for every door, and the fields of what is done or refused.

#![tactic(auto)]

ghost use Rattle.std.specs.Prelude.{◌≡◌};
ghost use Rattle.star_spec.specs.Cst.{refused};
ghost use Rattle.star_spec.specs.Door.{well_lent, fields, field_bytes, answer_after, outcome_fields};
ghost use Rattle.answer.specs.Records.{fields_of};
ghost use Rattle.refusal.specs.Outcomes.{refusal_of};

use refusal::Refusal;

// The bytes of an answer.
const LENGTH: usize = 16;

// What byte 7 holds.
const UNUSED: u8 = 0;

// The fields of an answer, named after CST's; each door says what it puts where. A field that a kind lacks is 0.
#[derive(Clone, Copy)]
pub struct Record {
    // byte 0: 0 refused, 1 passed, tree built or text taken, 2 lighter
    pub kind: u32,
    // byte 1: the refusal's number
    pub number: u32,
    // bytes 2 and 3: the row that goes out or the refusal's place; of a text that is taken, n
    pub out: u32,
    // bytes 4 and 5: the row that comes in; of a text that is taken, m
    pub into: u32,
    // byte 6: of a claim that passes, 1 where no other tree weighs the same
    pub only: u32,
    // bytes 8 to 15: the 64 bits of the weight or the saving, in two's complement; of a text that is refused, the place
    pub amount: u64,
}

// The sixteen bytes, each field least significant byte first.
pub fn bytes_of(x: Record) -> [u8; 16]
    ensures { result ≡ field_bytes (fields_of x) }
{
    let kind = x.kind;
    let number = x.number;
    let out = x.out;
    let into = x.into;
    let only = x.only;
    let a0 = x.amount;
    let a1 = a0 / 256;
    let a2 = a1 / 256;
    let a3 = a2 / 256;
    let a4 = a3 / 256;
    let a5 = a4 / 256;
    let a6 = a5 / 256;
    let a7 = a6 / 256;
    [
        (kind % 256) as u8,
        (number % 256) as u8,
        (out % 256) as u8,
        (out / 256 % 256) as u8,
        (into % 256) as u8,
        (into / 256 % 256) as u8,
        (only % 256) as u8,
        UNUSED,
        (a0 % 256) as u8,
        (a1 % 256) as u8,
        (a2 % 256) as u8,
        (a3 % 256) as u8,
        (a4 % 256) as u8,
        (a5 % 256) as u8,
        (a6 % 256) as u8,
        (a7 % 256) as u8,
    ]
}

// Whether a lent answer has sixteen bytes; a door writes nothing into another one.
pub fn well_lent(answer: &[u8]) -> bool
    ensures { result ≡ well_lent answer.now }
{
    answer.len() == LENGTH
}

// Writes the sixteen bytes where the lent answer has sixteen; else nothing.
pub fn write_answer(answer: &mut [u8], x: Record)
    ensures { answer.new ≡ answer_after answer.old (fields_of x) }
{
    if answer.len() != 16 {
        return;
    }
    let bytes = bytes_of(x);
    for i in 0..16 {
        answer[i] = bytes[i];
    }
}

// The fields of a refusal.
pub fn of_refusal(refusal: Refusal) -> Record
    ensures { fields_of result ≡ fields (refused refusal) }
{
    Record {
        kind: 0,
        number: refusal.number,
        out: refusal.place,
        into: 0,
        only: 0,
        amount: 0,
    }
}

// The fields of what is done or refused.
pub fn of_outcome(outcome: Result<(), Refusal>) -> Record
    ensures { fields_of result ≡ outcome_fields (refusal_of outcome) }
{
    match outcome {
        Ok(()) => Record {
            kind: 1,
            number: 0,
            out: 0,
            into: 0,
            only: 0,
            amount: 0,
        },
        Err(refusal) => of_refusal(refusal),
    }
}
