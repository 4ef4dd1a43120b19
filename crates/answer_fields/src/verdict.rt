// The fields of CST's verdict.
ghost use Rattle.std.specs.Prelude.{◌≡◌};
ghost use Rattle.answer.specs.Records.{fields_of};
ghost use Rattle.cst.specs.Verdicts.{answer_of};
ghost use Rattle.star_spec.specs.Door.{fields};

use answer::{Record, of_refusal};
use cst::{Checked, Verdict};
use refusal::Refusal;

// The fields of CST's verdict.
pub fn of_verdict(answer: Result<Checked, Refusal>) -> Record
    ensures { fields_of result ≡ fields (answer_of answer) }
{
    let checked = match answer {
        Ok(checked) => checked,
        Err(refusal) => return of_refusal(refusal),
    };
    match checked.verdict {
        Verdict::Passed(x) => Record {
            kind: 1,
            number: 0,
            out: 0,
            into: 0,
            only: x.only as u32,
            amount: x.weight,
        },
        Verdict::Lighter(x) => Record {
            kind: 2,
            number: 0,
            out: x.out,
            into: x.into,
            only: 0,
            amount: x.saving as u64,
        },
    }
}
