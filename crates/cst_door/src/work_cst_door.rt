// CST over a working table for C.
ghost use Rattle.std.specs.Prelude.{◌≡◌};
ghost use Rattle.star_spec.specs.Call.{work_of};
ghost use Rattle.promise.specs.Promise.{working, CstCall};
ghost use Rattle.star_spec.specs.Door.{door_returns, cst_door};

use crate::cst_door::answered;
use in_use::InUse;

// CST over the rows in use, through the door. `means` says what the bytes are worth: what is read back, and what it says of the spanning trees of the rows in use.
#[unsafe(no_mangle)]
pub extern "C" fn star_work_cst(
    n: u32,
    words: &[u64],
    left: &[u8],
    right: &[u8],
    weight: &[u8],
    mark: &[u8],
    answer: &mut [u8],
) -> u32
    ensures returned { result ≡ door_returns answer.old }
    ensures answered { let c = work_of n words.now left.now right.now weight.now mark.now in
        answer.new ≡ cst_door c answer.old }
    ensures means { let t = working n words.now left.now right.now weight.now in
        CstCall t mark.now answer.old answer.new result }
{
    let working = InUse::working(words);
    answered(n, working, left, right, weight, mark, answer)
}
