// Which of two plans stands: of two lent mark columns over one table the lighter one is handed back as it is, the first if they weigh the same. Neither is written.

#![tactic(auto)]

ghost use Rattle.std.specs.Prelude.{◌≡◌};
ghost use Rattle.answer.specs.Records.{fields_of};
ghost use Rattle.which_spec.specs.Door.{which_fields, plan_number, plan_of, start_of, which_door, which_returns, handed_back};
ghost use Rattle.which_spec.specs.Means.{WhichCall};
ghost use Rattle.rowset.specs.Integers.{from_bits};
ghost use Rattle.in_use.specs.Tables.{table_in};
ghost use Rattle.star_spec.specs.Call.{call_of, work_of};
ghost use Rattle.which_decide.specs.Answers.{answer_of};

use answer::{Record, of_refusal, well_lent, write_answer};
use in_use::InUse;
use refusal::Refusal;
use which_decide::{Decision, decide};

// What byte 6 holds: nothing is said about other trees.
const ONLY: u32 = 0;

// The fields of a plan that stands, by the 64 bits of its weight.
fn of_weight(amount: u64) -> Record
    ensures { fields_of result ≡ record { kind = 1; number = 0; out = 0; into = 0; only = 0; amount = from_bits 64 amount } }
{
    Record {
        kind: 1,
        number: 0,
        out: 0,
        into: 0,
        only: ONLY,
        amount,
    }
}

// The fields of what is answered: kind 1 and the weight, or the refusal. The byte of the only tree is 0.
fn of_decision(decision: Result<Decision, Refusal>) -> Record
    ensures { fields_of result ≡ which_fields (answer_of decision) }
{
    match decision {
        Ok(Decision::First(weight)) => of_weight(weight),
        Ok(Decision::Second(weight)) => of_weight(weight),
        Err(refusal) => of_refusal(refusal),
    }
}

// The number of the plan that stands, 0 where neither does.
fn number_of(decision: Result<Decision, Refusal>) -> u32
    ensures { result ≡ plan_number (answer_of decision) }
{
    match decision {
        Ok(Decision::First(_)) => 1,
        Ok(Decision::Second(_)) => 2,
        Err(_) => 0,
    }
}

// Which plan stands over a table of either kind, 1 or 2, and the sixteen bytes; 0 on a refusal, and where the lent answer has not sixteen bytes.
pub fn which(
    n: u32,
    table: InUse,
    left: &[u8],
    right: &[u8],
    weight: &[u8],
    first: &[u8],
    second: &[u8],
    answer: &mut [u8],
) -> u32
    ensures { let c = table_in n table left.now right.now weight.now first.now in
        (result ≡ which_returns c second.now answer.old) × (answer.new ≡ which_door c second.now answer.old) }
{
    if !well_lent(answer) {
        return 0;
    }
    let decision = decide(n, table, left, right, weight, first, second);
    write_answer(answer, of_decision(decision));
    number_of(decision)
}

// The plan of a number, as it was lent: 1 the first, 2 the second, and of any other number the empty start of the first.
fn plan_of<'a>(k: u32, first: &'a [u8], second: &'a [u8]) -> &'a [u8]
    ensures plan { result.now ≡ plan_of first.now second.now k }
    ensures start { result.ref_ptr ≡ start_of first.entry.ref_ptr second.entry.ref_ptr k }
{
    if k == 1 {
        return first;
    }
    if k == 2 {
        return second;
    }
    &first[..0]
}

// The plan that stands, handed back as it was lent, over a plain table; and the sixteen bytes.
// On a refusal, and where the lent answer has not sixteen bytes, the empty start of the first comes back. `plan` says what the part handed back holds and `start` where it begins, so which of the two it is; `means` what it and the bytes are worth.
pub fn which_plan<'a>(
    n: u32,
    left: &[u8],
    right: &[u8],
    weight: &[u8],
    first: &'a [u8],
    second: &'a [u8],
    answer: &mut [u8],
) -> &'a [u8]
    ensures plan { let c = call_of n left.now right.now weight.now first.now in
        result.now ≡ handed_back c second.now answer.old }
    ensures start { let c = call_of n left.now right.now weight.now first.now in
        result.ref_ptr ≡ start_of first.entry.ref_ptr second.entry.ref_ptr (which_returns c second.now answer.old) }
    ensures written { let c = call_of n left.now right.now weight.now first.now in
        answer.new ≡ which_door c second.now answer.old }
    ensures means { let c = call_of n left.now right.now weight.now first.now in
        WhichCall c second.now answer.old answer.new result.now (which_returns c second.now answer.old) }
{
    let plain = InUse::plain(left.len());
    let k = which(n, plain, left, right, weight, first, second, answer);
    plan_of(k, first, second)
}

// The same over a working table.
pub fn work_which_plan<'a>(
    n: u32,
    words: &[u64],
    left: &[u8],
    right: &[u8],
    weight: &[u8],
    first: &'a [u8],
    second: &'a [u8],
    answer: &mut [u8],
) -> &'a [u8]
    ensures plan { let c = work_of n words.now left.now right.now weight.now first.now in
        result.now ≡ handed_back c second.now answer.old }
    ensures start { let c = work_of n words.now left.now right.now weight.now first.now in
        result.ref_ptr ≡ start_of first.entry.ref_ptr second.entry.ref_ptr (which_returns c second.now answer.old) }
    ensures written { let c = work_of n words.now left.now right.now weight.now first.now in
        answer.new ≡ which_door c second.now answer.old }
    ensures means { let c = work_of n words.now left.now right.now weight.now first.now in
        WhichCall c second.now answer.old answer.new result.now (which_returns c second.now answer.old) }
{
    let working = InUse::working(words);
    let k = which(n, working, left, right, weight, first, second, answer);
    plan_of(k, first, second)
}
