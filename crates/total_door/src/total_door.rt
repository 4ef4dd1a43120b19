// The total of a claim's marked rows for C, over a plain table and over a working table.
ghost use Rattle.std.specs.Prelude.{◌≡◌};
ghost use Rattle.answer.specs.Records.{fields_of};
ghost use Rattle.in_use.specs.Tables.{table_in};
ghost use Rattle.star_spec.specs.Call.{call_of, work_of};
ghost use Rattle.star_spec.specs.Door.{door_returns};
ghost use Rattle.total.specs.Answers.{answer_of};
ghost use Rattle.total_spec.specs.Bytes.{TotalCall};
ghost use Rattle.total_spec.specs.Total.{total_fields, total_door};

use answer::{Record, of_refusal, well_lent, write_answer};
use in_use::InUse;
use refusal::Refusal;
use total::claim_total;

// The fields of a total: kind 1 and the total, or the refusal.
pub fn of_total(total: Result<u64, Refusal>) -> Record
    ensures { fields_of result ≡ total_fields (answer_of total) }
{
    match total {
        Ok(amount) => Record {
            kind: 1,
            number: 0,
            out: 0,
            into: 0,
            only: 0,
            amount,
        },
        Err(refusal) => of_refusal(refusal),
    }
}

// The total over a table of either kind, in the lent answer.
fn answered(
    n: u32,
    table: InUse,
    left: &[u8],
    right: &[u8],
    weight: &[u8],
    mark: &[u8],
    answer: &mut [u8],
) -> u32
    ensures returned { result ≡ door_returns answer.old }
    ensures answered { let c = table_in n table left.now right.now weight.now mark.now in
        answer.new ≡ total_door c answer.old }
    ensures means { let c = table_in n table left.now right.now weight.now mark.now in
        TotalCall c answer.old answer.new result }
{
    if !well_lent(answer) {
        return 0;
    }
    let total = claim_total(n, table, left, right, weight, mark);
    write_answer(answer, of_total(total));
    1
}

// The total of the marked rows of a plain table through the door. `means` says what the bytes are worth.
#[unsafe(no_mangle)]
pub extern "C" fn star_total(
    n: u32,
    left: &[u8],
    right: &[u8],
    weight: &[u8],
    mark: &[u8],
    answer: &mut [u8],
) -> u32
    ensures returned { result ≡ door_returns answer.old }
    ensures answered { let c = call_of n left.now right.now weight.now mark.now in
        answer.new ≡ total_door c answer.old }
    ensures means { let c = call_of n left.now right.now weight.now mark.now in
        TotalCall c answer.old answer.new result }
{
    let plain = InUse::plain(left.len());
    answered(n, plain, left, right, weight, mark, answer)
}

// The total of the marked rows of a working table, whose rows in use are lent as sixteen words, through the door. `means` says what the bytes are worth.
#[unsafe(no_mangle)]
pub extern "C" fn star_work_total(
    n: u32,
    words: &[u64],
    left: &[u8],
    right: &[u8],
    weight: &[u8],
    mark: &[u8],
    answer: &mut [u8],
) -> u32
    ensures returned { result ≡ door_returns answer.old }
    ensures answered { let c = work_of n words.now left.now right.now weight.now mark.now in
        answer.new ≡ total_door c answer.old }
    ensures means { let c = work_of n words.now left.now right.now weight.now mark.now in
        TotalCall c answer.old answer.new result }
{
    let working = InUse::working(words);
    answered(n, working, left, right, weight, mark, answer)
}
