// MST1 over a working table for C.
ghost use Rattle.std.specs.Prelude.{◌≡◌};
ghost use Rattle.star_spec.specs.Call.{work_of};
ghost use Rattle.promise.specs.Promise.{working, Mst1Call};
ghost use Rattle.star_spec.specs.Door.{door_returns, mst1_door, mst1_door_marks};

use crate::mst1_door::answered;
use in_use::InUse;

// MST1 over the rows in use, through the door: the marks are written where a tree is built, with 0 at rows not in use, and stay as they are otherwise.
// `means` says what the bytes and the marks are worth.
#[unsafe(no_mangle)]
pub extern "C" fn star_work_mst1(
    n: u32,
    words: &[u64],
    left: &[u8],
    right: &[u8],
    weight: &[u8],
    mark: &mut [u8],
    answer: &mut [u8],
) -> u32
    ensures returned { result ≡ door_returns answer.old }
    ensures written { let c = work_of n words.now left.now right.now weight.now mark.old in
        (answer.new ≡ mst1_door c answer.old) × (mark.new ≡ mst1_door_marks c answer.old) }
    ensures means { let t = working n words.now left.now right.now weight.now in
        Mst1Call t mark.old answer.old answer.new mark.new result }
{
    let working = InUse::working(words);
    answered(n, working, left, right, weight, mark, answer)
}
