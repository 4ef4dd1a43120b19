// The fields of CST's verdict with the exchange beside it.
ghost use Rattle.std.specs.Prelude.{◌≡◌};
ghost use Rattle.answer.specs.Records.{fields_of};
ghost use Rattle.cst.specs.Verdicts.{answer_of, equal_rows_of};
ghost use Rattle.star_spec.specs.Door.{fields_beside};

use crate::verdict::of_verdict;
use answer::Record;
use cst::{Checked, Verdict};
use refusal::Refusal;

// The fields of CST's verdict, and beside a pass that is not the only one the two rows of the exchange.
pub fn of_checked(answer: Result<Checked, Refusal>) -> Record
    ensures { fields_of result ≡ fields_beside (answer_of answer) (equal_rows_of answer) }
{
    let Ok(checked) = answer else {
        return of_verdict(answer);
    };
    let Verdict::Passed(pass) = checked.verdict else {
        return of_verdict(answer);
    };
    if pass.only {
        return of_verdict(answer);
    }
    Record {
        kind: 1,
        number: 0,
        out: checked.out,
        into: checked.into,
        only: 0,
        amount: pass.weight,
    }
}
