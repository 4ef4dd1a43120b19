// Groups and rings of any marks for C, on plain and on working tables: lent columns, and a lent answer of sixteen bytes.
// If the lent answer has not sixteen bytes the call returns 0 and writes nothing anywhere; else it returns 1.

#![tactic(auto)]

ghost use Rattle.std.specs.Prelude.{◌≡◌};
ghost use Rattle.answer.specs.Records.{fields_of};
ghost use Rattle.groups.specs.Answers.{answer_of};
ghost use Rattle.groups_spec.specs.Bytes.{GroupsCall};
ghost use Rattle.groups_spec.specs.Door.{groups_fields, groups_door, groups_door_groups, groups_door_rings};
ghost use Rattle.in_use.specs.Tables.{table_in};
ghost use Rattle.star_spec.specs.Call.{call_of, work_of};
ghost use Rattle.star_spec.specs.Door.{door_returns};

use answer::{Record, of_refusal, well_lent, write_answer};
use groups::Counts;
use in_use::InUse;
use refusal::Refusal;

// The fields of the answer: the number of groups stands where a verdict has its weight, and that of rings where an exchange has the row that comes in.
pub fn of_groups(x: Result<Counts, Refusal>) -> Record
    ensures { fields_of result ≡ groups_fields (answer_of x) }
{
    match x {
        Ok(counts) => Record {
            kind: 1,
            number: 0,
            out: 0,
            into: counts.rings,
            only: 0,
            amount: u64::from(counts.groups),
        },
        Err(r) => of_refusal(r),
    }
}

// Groups and rings of a table of either kind through the door.
fn groups_table(
    n: u32,
    table: InUse,
    left: &[u8],
    right: &[u8],
    weight: &[u8],
    mark: &[u8],
    groups: &mut [u8],
    rings: &mut [u8],
    answer: &mut [u8],
) -> u32
    ensures { let c = table_in n table left.now right.now weight.now mark.now in
        (result ≡ door_returns answer.old)
        × (answer.new ≡ groups_door c groups.old rings.old answer.old)
        × (groups.new ≡ groups_door_groups c groups.old rings.old answer.old)
        × (rings.new ≡ groups_door_rings c groups.old rings.old answer.old) }
{
    if !well_lent(answer) {
        return 0;
    }
    let told = groups::groups(n, table, left, right, weight, mark, groups, rings);
    write_answer(answer, of_groups(told));
    1
}

// Groups and rings through the door: both columns are written where nothing is refused, and stay as they are otherwise.
// `means` says what the bytes and the columns are worth, by walks over marked rows.
#[unsafe(no_mangle)]
pub extern "C" fn star_groups(
    n: u32,
    left: &[u8],
    right: &[u8],
    weight: &[u8],
    mark: &[u8],
    groups: &mut [u8],
    rings: &mut [u8],
    answer: &mut [u8],
) -> u32
    ensures returned { result ≡ door_returns answer.old }
    ensures written { let c = call_of n left.now right.now weight.now mark.now in
        (answer.new ≡ groups_door c groups.old rings.old answer.old)
        × (groups.new ≡ groups_door_groups c groups.old rings.old answer.old)
        × (rings.new ≡ groups_door_rings c groups.old rings.old answer.old) }
    ensures means { let c = call_of n left.now right.now weight.now mark.now in
        GroupsCall c groups.old rings.old answer.old answer.new groups.new rings.new result }
{
    let table = InUse::plain(left.len());
    groups_table(n, table, left, right, weight, mark, groups, rings, answer)
}

// The same over a working table, whose rows in use are lent as sixteen words; the rings' column gets 0 at rows not in use.
// `means` says what the bytes and the columns are worth, by walks over marked rows.
#[unsafe(no_mangle)]
pub extern "C" fn star_work_groups(
    n: u32,
    words: &[u64],
    left: &[u8],
    right: &[u8],
    weight: &[u8],
    mark: &[u8],
    groups: &mut [u8],
    rings: &mut [u8],
    answer: &mut [u8],
) -> u32
    ensures returned { result ≡ door_returns answer.old }
    ensures written { let c = work_of n words.now left.now right.now weight.now mark.now in
        (answer.new ≡ groups_door c groups.old rings.old answer.old)
        × (groups.new ≡ groups_door_groups c groups.old rings.old answer.old)
        × (rings.new ≡ groups_door_rings c groups.old rings.old answer.old) }
    ensures means { let c = work_of n words.now left.now right.now weight.now mark.now in
        GroupsCall c groups.old rings.old answer.old answer.new groups.new rings.new result }
{
    let used = InUse::working(words);
    groups_table(n, used, left, right, weight, mark, groups, rings, answer)
}
