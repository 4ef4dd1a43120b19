// The fields of MST1's answers.
ghost use Rattle.std.specs.Prelude.{◌≡◌};
ghost use Rattle.answer.specs.Records.{fields_of};
ghost use Rattle.mst1.specs.Answers.{answer_of};
ghost use Rattle.star_spec.specs.Door.{built_fields};

use answer::{Record, of_refusal};
use refusal::Refusal;

// The fields of what MST1 built.
pub fn of_built(built: Result<u64, Refusal>) -> Record
    ensures { fields_of result ≡ built_fields (answer_of built) }
{
    match built {
        Ok(amount) => Record {
            kind: 1,
            number: 0,
            out: 0,
            into: 0,
            only: 0,
            amount,
        },
        Err(refusal) => of_refusal(refusal),
    }
}
