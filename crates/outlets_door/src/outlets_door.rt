// The tree with exactly t rows at r for C: sixteen bytes as MST1's, and the marks.
ghost use Rattle.std.specs.Prelude.{◌≡◌};
ghost use Rattle.outlets_spec.specs.Bytes.{OutletsCall};
ghost use Rattle.outlets_spec.specs.Door.{outlets_door, outlets_door_marks};
ghost use Rattle.in_use.specs.Tables.{table_in};
ghost use Rattle.star_spec.specs.Call.{call_of, work_of};
ghost use Rattle.star_spec.specs.Door.{door_returns};

use answer::{well_lent, write_answer};
use answer_fields::built::of_built;
use in_use::InUse;

// The tree with exactly t rows at r over a table of either kind through the door.
fn outlets_table(
    n: u32,
    table: InUse,
    left: &[u8],
    right: &[u8],
    weight: &[u8],
    mark: &mut [u8],
    r: u32,
    t: u32,
    answer: &mut [u8],
) -> u32
    ensures { let c = table_in n table left.now right.now weight.now mark.old in
        (result ≡ door_returns answer.old) × ((answer.new ≡ outlets_door c r t answer.old) × (mark.new ≡ outlets_door_marks c r t answer.old)) }
{
    if !well_lent(answer) {
        return 0;
    }
    let built = outlets::outlets(n, table, left, right, weight, mark, r, t);
    write_answer(answer, of_built(built));
    1
}

// The tree with exactly t rows at r through the door: the marks are written where a tree is built, and stay as they are otherwise.
// `means` says what the bytes and the marks are worth.
#[unsafe(no_mangle)]
pub extern "C" fn star_outlets(
    n: u32,
    left: &[u8],
    right: &[u8],
    weight: &[u8],
    mark: &mut [u8],
    r: u32,
    t: u32,
    answer: &mut [u8],
) -> u32
    ensures returned { result ≡ door_returns answer.old }
    ensures written { let c = call_of n left.now right.now weight.now mark.old in
        (answer.new ≡ outlets_door c r t answer.old) × (mark.new ≡ outlets_door_marks c r t answer.old) }
    ensures means { let c = call_of n left.now right.now weight.now mark.old in
        OutletsCall c r t answer.old answer.new mark.new result }
{
    let table = InUse::plain(left.len());
    outlets_table(n, table, left, right, weight, mark, r, t, answer)
}

// The same over the rows in use of a working table, which are lent as sixteen words. The marks of rows that are not in use become 0.
// `means` says what the bytes and the marks are worth.
#[unsafe(no_mangle)]
pub extern "C" fn star_work_outlets(
    n: u32,
    words: &[u64],
    left: &[u8],
    right: &[u8],
    weight: &[u8],
    mark: &mut [u8],
    r: u32,
    t: u32,
    answer: &mut [u8],
) -> u32
    ensures returned { result ≡ door_returns answer.old }
    ensures written { let c = work_of n words.now left.now right.now weight.now mark.old in
        (answer.new ≡ outlets_door c r t answer.old) × (mark.new ≡ outlets_door_marks c r t answer.old) }
    ensures means { let c = work_of n words.now left.now right.now weight.now mark.old in
        OutletsCall c r t answer.old answer.new mark.new result }
{
    let used = InUse::working(words);
    outlets_table(n, used, left, right, weight, mark, r, t, answer)
}
