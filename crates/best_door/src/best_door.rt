// The best exchange for C: twenty-four bytes as a quote's, of which the first sixteen are those of every door, and the last eight the least total.
ghost use Rattle.std.specs.Prelude.{◌≡◌};
ghost use Rattle.in_use.specs.Tables.{table_in};
ghost use Rattle.answer.specs.Records.{fields_of};
ghost use Rattle.best.specs.Answers.{answer_of};
ghost use Rattle.best_spec.specs.Bytes.{BestCall};
ghost use Rattle.best_spec.specs.Door.{best_fields, least_of, best_returns, best_door};
ghost use Rattle.rowset.specs.Integers.{from_bits};
ghost use Rattle.star_spec.specs.Call.{call_of, work_of};

use answer::{Record, of_refusal};
use best::Found;
use in_use::InUse;
use quote_answer::{LENGTH, QuoteRecord, write_quote};
use refusal::Refusal;

// The fields of what was found; the last eight bytes of a refusal are 0.
pub fn of_best(found: Result<Found, Refusal>) -> QuoteRecord
    ensures first { fields_of result.first ≡ best_fields (answer_of found) }
    ensures least { from_bits 64 result.after ≡ least_of (answer_of found) }
{
    match found {
        Ok(Found::Stays(x)) => QuoteRecord {
            first: Record {
                kind: 1,
                number: 0,
                out: 0,
                into: 0,
                only: 0,
                amount: x.weight,
            },
            after: x.least,
        },
        Ok(Found::Saves(x)) => QuoteRecord {
            first: Record {
                kind: 2,
                number: 0,
                out: x.out,
                into: x.into,
                only: 0,
                amount: x.saving as u64,
            },
            after: x.least,
        },
        Err(refusal) => QuoteRecord {
            first: of_refusal(refusal),
            after: 0,
        },
    }
}

// The best exchange over a table of either kind, in the lent answer.
fn answered(
    n: u32,
    table: InUse,
    left: &[u8],
    right: &[u8],
    weight: &[u8],
    mark: &[u8],
    answer: &mut [u8],
) -> u32
    ensures returned { result ≡ best_returns answer.old }
    ensures answered { let c = table_in n table left.now right.now weight.now mark.now in
        answer.new ≡ best_door c answer.old }
    ensures means { let c = table_in n table left.now right.now weight.now mark.now in
        BestCall c answer.old answer.new result }
{
    if answer.len() != LENGTH {
        return 0;
    }
    let b = best::best(n, table, left, right, weight, mark);
    let x = of_best(b);
    write_quote(answer, x);
    1
}

// The best exchange through the door. `means` says what the bytes are worth.
#[unsafe(no_mangle)]
pub extern "C" fn star_best(
    n: u32,
    left: &[u8],
    right: &[u8],
    weight: &[u8],
    mark: &[u8],
    answer: &mut [u8],
) -> u32
    ensures returned { result ≡ best_returns answer.old }
    ensures answered { let c = call_of n left.now right.now weight.now mark.now in
        answer.new ≡ best_door c answer.old }
    ensures means { let c = call_of n left.now right.now weight.now mark.now in
        BestCall c answer.old answer.new result }
{
    let plain = InUse::plain(left.len());
    answered(n, plain, left, right, weight, mark, answer)
}

// The same over the rows in use of a working table, which are lent as sixteen words. `means` as above, of the rows in use.
#[unsafe(no_mangle)]
pub extern "C" fn star_work_best(
    n: u32,
    words: &[u64],
    left: &[u8],
    right: &[u8],
    weight: &[u8],
    mark: &[u8],
    answer: &mut [u8],
) -> u32
    ensures returned { result ≡ best_returns answer.old }
    ensures answered { let c = work_of n words.now left.now right.now weight.now mark.now in
        answer.new ≡ best_door c answer.old }
    ensures means { let c = work_of n words.now left.now right.now weight.now mark.now in
        BestCall c answer.old answer.new result }
{
    let working = InUse::working(words);
    answered(n, working, left, right, weight, mark, answer)
}
