// MERGE of a working table for C.
ghost use Rattle.std.specs.Prelude.{◌≡◌};
ghost use Rattle.change_meaning.specs.Bytes.{MergeCall};
ghost use Rattle.star_spec.specs.Door.{door_returns};
ghost use Rattle.change_spec.specs.Door.{merge_door, merge_door_table};
ghost use Rattle.change_spec.specs.Tables.{working};

use answer::{of_outcome, well_lent, write_answer};

// MERGE through the door: the table is packed and the numbers are filled where nothing is refused.
// `means` says what the bytes and the table are worth: what moved where, and that no least total changes.
#[unsafe(no_mangle)]
pub extern "C" fn star_merge(
    words: &mut [u64],
    left: &mut [u8],
    right: &mut [u8],
    weight: &mut [u8],
    numbers: &mut [u32],
    answer: &mut [u8],
) -> u32
    ensures returned { result ≡ door_returns answer.old }
    ensures answered { answer.new ≡ merge_door (working words.old left.old right.old weight.old numbers.old) answer.old }
    ensures table { working words.new left.new right.new weight.new numbers.new ≡ merge_door_table (working words.old left.old right.old weight.old numbers.old) answer.old }
    ensures means { MergeCall (working words.old left.old right.old weight.old numbers.old) answer.old answer.new (working words.new left.new right.new weight.new numbers.new) result }
{
    if !well_lent(answer) {
        return 0;
    }
    let outcome = change::merge(words, left, right, weight, numbers);
    write_answer(answer, of_outcome(outcome));
    1
}
