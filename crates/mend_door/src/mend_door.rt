// The mender's doors: the claim and the list are written where the claim is mended, and stay as they are otherwise.
ghost use Rattle.std.specs.Prelude.{length, ◌≡◌};
ghost use Rattle.answer.specs.Records.{fields_of};
ghost use Rattle.mend_spec.specs.Bytes.{MendCall};
ghost use Rattle.mend_spec.specs.Door.{mend_fields, mend_door, mend_door_marks, mend_door_list};
ghost use Rattle.mend.specs.Answers.{answer_of};
ghost use Rattle.mend_door.specs.Told.{records_of, mend_door_count};
ghost use Rattle.in_use.specs.Tables.{table_in};
ghost use Rattle.star_spec.specs.Call.{call_of, work_of};
ghost use Rattle.star_spec.specs.Door.{door_returns};

use answer::{of_refusal, well_lent, write_answer};
use in_use::InUse;
use mend_record::Record;
use refusal::Refusal;

// What a call gives: how many records it wrote, which stand first in the lent list, and the number returned.
#[derive(Clone, Copy)]
pub struct Told {
    pub count: usize,
    pub returned: u32,
}

// The fields of what was mended: the number of records is the amount.
pub fn of_mended(x: Result<u32, Refusal>) -> answer::Record
    ensures { fields_of result ≡ mend_fields (answer_of x) }
{
    match x {
        Ok(count) => answer::Record {
            kind: 1,
            number: 0,
            out: 0,
            into: 0,
            only: 0,
            amount: u64::from(count),
        },
        Err(r) => of_refusal(r),
    }
}

// How many records were written.
#[tactic(auto, unfolding(crate::specs::Told::records_of, mend::specs::Answers::answer_of))]
fn count_of(x: Result<u32, Refusal>) -> usize
    ensures { result ≡ records_of (answer_of x) }
{
    match x {
        Ok(count) => count as usize,
        Err(_) => 0,
    }
}

// Mending of a table of either kind through the door.
fn mend_table(
    n: u32,
    table: InUse,
    left: &[u8],
    right: &[u8],
    weight: &[u8],
    mark: &mut [u8],
    records: &mut [Record],
    answer: &mut [u8],
) -> Told
    ensures { let c = table_in n table left.now right.now weight.now mark.old in
        (result.returned ≡ door_returns answer.old) × (answer.new ≡ mend_door c (length records.old) answer.old) × (mark.new ≡ mend_door_marks c (length records.old) answer.old) × (records.new ≡ mend_door_list c records.old answer.old) × (result.count ≡ mend_door_count c (length records.old) answer.old) }
{
    if !well_lent(answer) {
        return Told {
            count: 0,
            returned: 0,
        };
    }
    let mended = mend::mend(n, table, left, right, weight, mark, records);
    write_answer(answer, of_mended(mended));
    Told {
        count: count_of(mended),
        returned: 1,
    }
}

// Mending through the door. `means` says what the bytes, the claim and the list are worth.
#[unsafe(no_mangle)]
pub extern "C" fn star_mend(
    n: u32,
    left: &[u8],
    right: &[u8],
    weight: &[u8],
    mark: &mut [u8],
    records: &mut [Record],
    answer: &mut [u8],
) -> u32
    ensures returned { result ≡ door_returns answer.old }
    ensures written { let c = call_of n left.now right.now weight.now mark.old in
        (answer.new ≡ mend_door c (length records.old) answer.old) × (mark.new ≡ mend_door_marks c (length records.old) answer.old) × (records.new ≡ mend_door_list c records.old answer.old) }
    ensures means { let c = call_of n left.now right.now weight.now mark.old in
        MendCall c records.old answer.old answer.new mark.new records.new result }
{
    let table = InUse::plain(left.len());
    mend_table(n, table, left, right, weight, mark, records, answer).returned
}

// Mending of a working table, whose rows in use are lent as sixteen words, through the door. `means` says what the bytes, the claim and the list are worth.
#[unsafe(no_mangle)]
pub extern "C" fn star_work_mend(
    n: u32,
    words: &[u64],
    left: &[u8],
    right: &[u8],
    weight: &[u8],
    mark: &mut [u8],
    records: &mut [Record],
    answer: &mut [u8],
) -> u32
    ensures returned { result ≡ door_returns answer.old }
    ensures written { let c = work_of n words.now left.now right.now weight.now mark.old in
        (answer.new ≡ mend_door c (length records.old) answer.old) × (mark.new ≡ mend_door_marks c (length records.old) answer.old) × (records.new ≡ mend_door_list c records.old answer.old) }
    ensures means { let c = work_of n words.now left.now right.now weight.now mark.old in
        MendCall c records.old answer.old answer.new mark.new records.new result }
{
    let used = InUse::working(words);
    mend_table(n, used, left, right, weight, mark, records, answer).returned
}
