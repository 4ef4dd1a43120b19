// The breaking price for C: kind 1 and the price, kind 2 and all else 0 where there is none, or the refusal.
ghost use Rattle.std.specs.Prelude.{◌≡◌};
ghost use Rattle.in_use.specs.Tables.{table_in};
ghost use Rattle.answer.specs.Records.{fields_of};
ghost use Rattle.breaking.specs.Answers.{answer_of};
ghost use Rattle.price_meaning.specs.Breaking.{BreakingCall};
ghost use Rattle.price_spec.specs.Door.{breaking_fields, breaking_door};
ghost use Rattle.price_spec.specs.Quote.{asked, asked_work};
ghost use Rattle.rowset.specs.Integers.{from_bits, signed};
ghost use Rattle.star_spec.specs.Door.{door_returns};

use answer::{Record, of_refusal, well_lent, write_answer};
use in_use::InUse;
use refusal::Refusal;

// 2 ^ 31, from which on 32 bits stand for a number below zero, and the upper half of 64 bits.
const NEGATIVE: u32 = 2147483648;

const UPPER: u64 = 18446744069414584320;

// The 64 bits that stand for the price of 32 bits.
fn widened(price: u32) -> u64
    ensures { from_bits 64 result ≡ signed price }
{
    if price < NEGATIVE {
        return price as u64;
    }
    price as u64 + UPPER
}

// The fields of what is said of a breaking price.
pub fn of_breaks(price: Result<Option<u32>, Refusal>) -> Record
    ensures { fields_of result ≡ breaking_fields (answer_of price) }
{
    match price {
        Ok(Some(price)) => Record {
            kind: 1,
            number: 0,
            out: 0,
            into: 0,
            only: 0,
            amount: widened(price),
        },
        Ok(None) => Record {
            kind: 2,
            number: 0,
            out: 0,
            into: 0,
            only: 0,
            amount: 0,
        },
        Err(refusal) => of_refusal(refusal),
    }
}

// The breaking price over a table of either kind, in the lent answer.
fn answered(
    n: u32,
    table: InUse,
    left: &[u8],
    right: &[u8],
    weight: &[u8],
    row: u32,
    answer: &mut [u8],
) -> u32
    ensures returned { result ≡ door_returns answer.old }
    ensures answered { let c = table_in n table left.now right.now weight.now left.now in
        answer.new ≡ breaking_door c row answer.old }
    ensures means { let c = table_in n table left.now right.now weight.now left.now in
        BreakingCall c row answer.old answer.new result }
{
    if !well_lent(answer) {
        return 0;
    }
    let around = breaking::around_rows(n, table, left, right, weight, row);
    let b = breaking::told(n, left, right, weight, row, around);
    let x = of_breaks(b);
    write_answer(answer, x);
    1
}

// The breaking price through the door. `means` says what the bytes are worth: what is read back, and what it says of the routes between the row's ends and of the least totals.
#[unsafe(no_mangle)]
pub extern "C" fn star_breaking(
    n: u32,
    left: &[u8],
    right: &[u8],
    weight: &[u8],
    row: u32,
    answer: &mut [u8],
) -> u32
    ensures returned { result ≡ door_returns answer.old }
    ensures answered { let c = asked n left.now right.now weight.now in
        answer.new ≡ breaking_door c row answer.old }
    ensures means { let c = asked n left.now right.now weight.now in
        BreakingCall c row answer.old answer.new result }
{
    let plain = InUse::plain(left.len());
    answered(n, plain, left, right, weight, row, answer)
}

// The breaking price of a working table, whose rows in use are lent as sixteen words, through the door. `means` says what the bytes are worth of the rows in use.
#[unsafe(no_mangle)]
pub extern "C" fn star_work_breaking(
    n: u32,
    words: &[u64],
    left: &[u8],
    right: &[u8],
    weight: &[u8],
    row: u32,
    answer: &mut [u8],
) -> u32
    ensures returned { result ≡ door_returns answer.old }
    ensures answered { let c = asked_work n words.now left.now right.now weight.now in
        answer.new ≡ breaking_door c row answer.old }
    ensures means { let c = asked_work n words.now left.now right.now weight.now in
        BreakingCall c row answer.old answer.new result }
{
    let working = InUse::working(words);
    answered(n, working, left, right, weight, row, answer)
}
