// MST1 for C.
ghost use Rattle.std.specs.Prelude.{◌≡◌};
ghost use Rattle.in_use.specs.Tables.{table_in};
ghost use Rattle.star_spec.specs.Call.{call_of};
ghost use Rattle.promise.specs.Promise.{plain, Mst1Call};
ghost use Rattle.star_spec.specs.Door.{door_returns, mst1_door, mst1_door_marks};

use answer::{well_lent, write_answer};
use answer_fields::built::of_built;
use in_use::InUse;

// MST1 over a table of either kind, in the lent marks and the lent answer.
pub(crate) fn answered(
    n: u32,
    table: InUse,
    left: &[u8],
    right: &[u8],
    weight: &[u8],
    mark: &mut [u8],
    answer: &mut [u8],
) -> u32
    ensures returned { result ≡ door_returns answer.old }
    ensures written { let c = table_in n table left.now right.now weight.now mark.old in
        (answer.new ≡ mst1_door c answer.old) × (mark.new ≡ mst1_door_marks c answer.old) }
{
    if !well_lent(answer) {
        return 0;
    }
    let b = mst1::mst1(n, table, left, right, weight, mark);
    let x = of_built(b);
    write_answer(answer, x);
    1
}

// MST1 through the door: the marks are written where a tree is built, and stay as they are otherwise.
// `means` says what the bytes and the marks are worth.
#[unsafe(no_mangle)]
pub extern "C" fn star_mst1(
    n: u32,
    left: &[u8],
    right: &[u8],
    weight: &[u8],
    mark: &mut [u8],
    answer: &mut [u8],
) -> u32
    ensures returned { result ≡ door_returns answer.old }
    ensures written { let c = call_of n left.now right.now weight.now mark.old in
        (answer.new ≡ mst1_door c answer.old) × (mark.new ≡ mst1_door_marks c answer.old) }
    ensures means { let t = plain n left.now right.now weight.now in
        Mst1Call t mark.old answer.old answer.new mark.new result }
{
    let plain = InUse::plain(left.len());
    answered(n, plain, left, right, weight, mark, answer)
}
