// The dearest of each detour for C: sixteen bytes as MST1's, and a number for each row.
ghost use Rattle.std.specs.Prelude.{◌≡◌};
ghost use Rattle.in_use.specs.Tables.{table_in};
ghost use Rattle.detour_spec.specs.Bytes.{DetoursCall};
ghost use Rattle.detour_spec.specs.Door.{detours_door, detours_door_rows};
ghost use Rattle.star_spec.specs.Call.{call_of, work_of};
ghost use Rattle.star_spec.specs.Door.{door_returns};

use answer::{well_lent, write_answer};
use in_use::InUse;

// The dearest of each detour over a table of either kind, in the lent answer and the lent numbers.
fn answered(
    n: u32,
    table: InUse,
    left: &[u8],
    right: &[u8],
    weight: &[u8],
    mark: &[u8],
    rows: &mut [u32],
    answer: &mut [u8],
) -> u32
    ensures returned { result ≡ door_returns answer.old }
    ensures written { let c = table_in n table left.now right.now weight.now mark.now in
        (answer.new ≡ detours_door c rows.old answer.old) × (rows.new ≡ detours_door_rows c rows.old answer.old) }
    ensures means { let c = table_in n table left.now right.now weight.now mark.now in
        DetoursCall c rows.old rows.new answer.old answer.new result }
{
    if !well_lent(answer) {
        return 0;
    }
    let b = detour::detours(n, table, left, right, weight, mark, rows);
    let x = answer_fields::built::of_built(b);
    write_answer(answer, x);
    1
}

// The dearest of each detour through the door: the numbers are written where the claim is a spanning tree, and stay as they are otherwise.
// `means` says what the bytes and the numbers are worth.
#[unsafe(no_mangle)]
pub extern "C" fn star_detours(
    n: u32,
    left: &[u8],
    right: &[u8],
    weight: &[u8],
    mark: &[u8],
    rows: &mut [u32],
    answer: &mut [u8],
) -> u32
    ensures returned { result ≡ door_returns answer.old }
    ensures written { let c = call_of n left.now right.now weight.now mark.now in
        (answer.new ≡ detours_door c rows.old answer.old) × (rows.new ≡ detours_door_rows c rows.old answer.old) }
    ensures means { let c = call_of n left.now right.now weight.now mark.now in
        DetoursCall c rows.old rows.new answer.old answer.new result }
{
    let plain = InUse::plain(left.len());
    answered(n, plain, left, right, weight, mark, rows, answer)
}

// The same over the rows in use of a working table, which are lent as sixteen words. The numbers of rows that are not in use become 0.
// `means` says what the bytes and the numbers are worth.
#[unsafe(no_mangle)]
pub extern "C" fn star_work_detours(
    n: u32,
    words: &[u64],
    left: &[u8],
    right: &[u8],
    weight: &[u8],
    mark: &[u8],
    rows: &mut [u32],
    answer: &mut [u8],
) -> u32
    ensures returned { result ≡ door_returns answer.old }
    ensures written { let c = work_of n words.now left.now right.now weight.now mark.now in
        (answer.new ≡ detours_door c rows.old answer.old) × (rows.new ≡ detours_door_rows c rows.old answer.old) }
    ensures means { let c = work_of n words.now left.now right.now weight.now mark.now in
        DetoursCall c rows.old rows.new answer.old answer.new result }
{
    let working = InUse::working(words);
    answered(n, working, left, right, weight, mark, rows, answer)
}
