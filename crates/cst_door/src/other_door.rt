// CST for C, with the rows of an exchange that gives another tree of the same weight.
ghost use Rattle.std.specs.Prelude.{◌≡◌};
ghost use Rattle.in_use.specs.Tables.{table_in};
ghost use Rattle.star_spec.specs.Call.{call_of};
ghost use Rattle.promise.specs.Promise.{plain, OtherCall};
ghost use Rattle.star_spec.specs.Door.{door_returns, other_door};

use answer::{well_lent, write_answer};
use answer_fields::checked::of_checked;
use in_use::InUse;

// CST with the exchange over a table of either kind, in the lent answer.
pub(crate) fn answered(
    n: u32,
    table: InUse,
    left: &[u8],
    right: &[u8],
    weight: &[u8],
    mark: &[u8],
    answer: &mut [u8],
) -> u32
    ensures returned { result ≡ door_returns answer.old }
    ensures answered { let c = table_in n table left.now right.now weight.now mark.now in
        answer.new ≡ other_door c answer.old }
{
    if !well_lent(answer) {
        return 0;
    }
    let checked = cst::cst(n, table, left, right, weight, mark);
    let x = of_checked(checked);
    write_answer(answer, x);
    1
}

// CST with the exchange through the door. `means` says what the bytes are worth: what is read back, and what it says of the table's spanning trees.
#[unsafe(no_mangle)]
pub extern "C" fn star_other(
    n: u32,
    left: &[u8],
    right: &[u8],
    weight: &[u8],
    mark: &[u8],
    answer: &mut [u8],
) -> u32
    ensures returned { result ≡ door_returns answer.old }
    ensures answered { let c = call_of n left.now right.now weight.now mark.now in
        answer.new ≡ other_door c answer.old }
    ensures means { let t = plain n left.now right.now weight.now in
        OtherCall t mark.now answer.old answer.new result }
{
    let plain = InUse::plain(left.len());
    answered(n, plain, left, right, weight, mark, answer)
}
