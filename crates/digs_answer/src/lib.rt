// The fields of what was listed, as the doors of dig lists write them into the lent answer.

#![tactic(auto)]

ghost use Rattle.std.specs.Prelude.{◌≡◌};
ghost use Rattle.answer.specs.Records.{fields_of};
ghost use Rattle.digs_answer.specs.Steps.Fields.{table_fields, stp_fields};

use answer::{Record, of_refusal};
use refusal::Refusal;

// The fields of a table's list: its length stands where a verdict has its weight.
pub fn of_list(list: Result<usize, Refusal>) -> Record
    ensures { fields_of result ≡ table_fields list }
{
    match list {
        Ok(size) => Record {
            kind: 1,
            number: 0,
            out: 0,
            into: 0,
            only: 0,
            amount: size as u64,
        },
        Err(refusal) => of_refusal(refusal),
    }
}

// The fields of a text's list: a refusal's place stands there too.
pub fn of_text_list(list: Result<usize, Refusal>) -> Record
    ensures { fields_of result ≡ stp_fields list }
{
    match list {
        Ok(size) => Record {
            kind: 1,
            number: 0,
            out: 0,
            into: 0,
            only: 0,
            amount: size as u64,
        },
        Err(refusal) => Record {
            kind: 0,
            number: refusal.number,
            out: 0,
            into: 0,
            only: 0,
            amount: refusal.place as u64,
        },
    }
}
