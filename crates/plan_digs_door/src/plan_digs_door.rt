// The dig list of a plan for C, over a plain table and over a working table.
ghost use Rattle.std.specs.Prelude.{◌≡◌};
ghost use Rattle.in_use.specs.Tables.{table_in};
ghost use Rattle.digs_spec.specs.Door.{list_fields, list_returns, list_answered, list_text};
ghost use Rattle.plan_digs_spec.specs.Bytes.{PlanDigsCall};
ghost use Rattle.plan_digs_spec.specs.PlanList.{plan_list};
ghost use Rattle.star_spec.specs.Call.{call_of, work_of};

use answer::{well_lent, write_answer};
use digs::LIST_BYTES;
use digs_answer::of_list;
use in_use::InUse;

// The list of the marked rows over a table of either kind, in the lent text and the lent answer.
fn answered(
    n: u32,
    table: InUse,
    left: &[u8],
    right: &[u8],
    weight: &[u8],
    mark: &[u8],
    text: &mut [u8],
    answer: &mut [u8],
) -> u32
    ensures returned { result ≡ list_returns text.old answer.old }
    ensures answered { let a = plan_list (table_in n table left.now right.now weight.now mark.now) in
        answer.new ≡ list_answered text.old answer.old (list_fields a) }
    ensures listed { let a = plan_list (table_in n table left.now right.now weight.now mark.now) in
        text.new ≡ list_text a text.old answer.old }
    ensures means { let c = table_in n table left.now right.now weight.now mark.now in
        PlanDigsCall c text.old answer.old text.new answer.new result }
{
    if !well_lent(answer) {
        return 0;
    }
    if text.len() < LIST_BYTES {
        return 0;
    }
    let list = plan_digs::plan_list(n, table, left, right, weight, mark, text);
    let x = of_list(list);
    write_answer(answer, x);
    1
}

// The list of the marked rows of a plain table, through the door. `means` says what the bytes and the text are worth.
#[unsafe(no_mangle)]
pub extern "C" fn star_plan_digs(
    n: u32,
    left: &[u8],
    right: &[u8],
    weight: &[u8],
    mark: &[u8],
    text: &mut [u8],
    answer: &mut [u8],
) -> u32
    ensures returned { result ≡ list_returns text.old answer.old }
    ensures answered { let a = plan_list (call_of n left.now right.now weight.now mark.now) in
        answer.new ≡ list_answered text.old answer.old (list_fields a) }
    ensures listed { let a = plan_list (call_of n left.now right.now weight.now mark.now) in
        text.new ≡ list_text a text.old answer.old }
    ensures means { let c = call_of n left.now right.now weight.now mark.now in
        PlanDigsCall c text.old answer.old text.new answer.new result }
{
    let plain = InUse::plain(left.len());
    answered(n, plain, left, right, weight, mark, text, answer)
}

// The list of the marked rows of a working table, whose rows in use are lent as sixteen words, through the door. `means` says what the bytes and the text are worth.
#[unsafe(no_mangle)]
pub extern "C" fn star_work_plan_digs(
    n: u32,
    words: &[u64],
    left: &[u8],
    right: &[u8],
    weight: &[u8],
    mark: &[u8],
    text: &mut [u8],
    answer: &mut [u8],
) -> u32
    ensures returned { result ≡ list_returns text.old answer.old }
    ensures answered { let a = plan_list (work_of n words.now left.now right.now weight.now mark.now) in
        answer.new ≡ list_answered text.old answer.old (list_fields a) }
    ensures listed { let a = plan_list (work_of n words.now left.now right.now weight.now mark.now) in
        text.new ≡ list_text a text.old answer.old }
    ensures means { let c = work_of n words.now left.now right.now weight.now mark.now in
        PlanDigsCall c text.old answer.old text.new answer.new result }
{
    let working = InUse::working(words);
    answered(n, working, left, right, weight, mark, text, answer)
}
