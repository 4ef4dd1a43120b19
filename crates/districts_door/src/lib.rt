// Districts first, then the city, for C, on plain and on working tables: lent columns, the ends of the runs, and a lent answer of sixteen bytes.
// If the lent answer has not sixteen bytes the call returns 0 and writes nothing anywhere; else it returns 1.

#![tactic(auto)]

ghost use Rattle.std.specs.Prelude.{◌≡◌};
ghost use Rattle.districts_spec.specs.Bytes.{DistrictsCall};
ghost use Rattle.districts_spec.specs.Door.{districts_door, districts_door_forests, districts_door_marks};
ghost use Rattle.in_use.specs.Tables.{table_in};
ghost use Rattle.star_spec.specs.Call.{call_of, work_of};
ghost use Rattle.star_spec.specs.Door.{door_returns};

use answer::{well_lent, write_answer};
use answer_fields::built::of_built;
use in_use::InUse;

// Districts and city of a table of either kind through the door.
fn districts_table(
    n: u32,
    table: InUse,
    left: &[u8],
    right: &[u8],
    weight: &[u8],
    ends: &[u32],
    forests: &mut [u8],
    mark: &mut [u8],
    answer: &mut [u8],
) -> u32
    ensures { let c = table_in n table left.now right.now weight.now mark.old in
        (result ≡ door_returns answer.old)
        × ((answer.new ≡ districts_door c forests.old ends.now answer.old)
        × (forests.new ≡ districts_door_forests c forests.old ends.now answer.old)
        × (mark.new ≡ districts_door_marks c forests.old ends.now answer.old)) }
{
    if !well_lent(answer) {
        return 0;
    }
    let built = districts::districts(n, table, left, right, weight, ends, forests, mark);
    write_answer(answer, of_built(built));
    1
}

// Districts and city through the door: both columns are written where a tree is built, and stay as they are otherwise.
// `means` says what the bytes and the columns are worth.
#[unsafe(no_mangle)]
pub extern "C" fn star_districts(
    n: u32,
    left: &[u8],
    right: &[u8],
    weight: &[u8],
    ends: &[u32],
    forests: &mut [u8],
    mark: &mut [u8],
    answer: &mut [u8],
) -> u32
    ensures returned { result ≡ door_returns answer.old }
    ensures written { let c = call_of n left.now right.now weight.now mark.old in
        (answer.new ≡ districts_door c forests.old ends.now answer.old)
        × (forests.new ≡ districts_door_forests c forests.old ends.now answer.old)
        × (mark.new ≡ districts_door_marks c forests.old ends.now answer.old) }
    ensures means { let c = call_of n left.now right.now weight.now mark.old in
        DistrictsCall c forests.old ends.now answer.old answer.new forests.new mark.new result }
{
    let table = InUse::plain(left.len());
    districts_table(n, table, left, right, weight, ends, forests, mark, answer)
}

// The same over a working table, whose rows in use are lent as sixteen words; both columns get 0 at rows not in use.
// `means` says what the bytes and the columns are worth.
#[unsafe(no_mangle)]
pub extern "C" fn star_work_districts(
    n: u32,
    words: &[u64],
    left: &[u8],
    right: &[u8],
    weight: &[u8],
    ends: &[u32],
    forests: &mut [u8],
    mark: &mut [u8],
    answer: &mut [u8],
) -> u32
    ensures returned { result ≡ door_returns answer.old }
    ensures written { let c = work_of n words.now left.now right.now weight.now mark.old in
        (answer.new ≡ districts_door c forests.old ends.now answer.old)
        × (forests.new ≡ districts_door_forests c forests.old ends.now answer.old)
        × (mark.new ≡ districts_door_marks c forests.old ends.now answer.old) }
    ensures means { let c = work_of n words.now left.now right.now weight.now mark.old in
        DistrictsCall c forests.old ends.now answer.old answer.new forests.new mark.new result }
{
    let used = InUse::working(words);
    districts_table(n, used, left, right, weight, ends, forests, mark, answer)
}
