// Carrying a claim through the numbers of MERGE or of an add, for C.
ghost use Rattle.std.specs.Prelude.{◌≡◌};
ghost use Rattle.change_meaning.specs.Bytes.{CarryCall};
ghost use Rattle.star_spec.specs.Door.{door_returns};
ghost use Rattle.change_spec.specs.Door.{carry_door, carry_door_marks};

use answer::{of_outcome, well_lent, write_answer};

// Carrying through the door: each byte goes to its row's new position, and 0 stands elsewhere, where nothing is refused.
// `means` says what the bytes and the claim are worth: a claim that passed passes again.
#[unsafe(no_mangle)]
pub extern "C" fn star_carry(numbers: &[u32], mark: &mut [u8], answer: &mut [u8]) -> u32
    ensures returned { result ≡ door_returns answer.old }
    ensures answered { answer.new ≡ carry_door numbers.now mark.old answer.old }
    ensures marks { mark.new ≡ carry_door_marks numbers.now mark.old answer.old }
    ensures means { CarryCall numbers.now mark.old answer.old answer.new mark.new result }
{
    if !well_lent(answer) {
        return 0;
    }
    let outcome = change::carry::carry(numbers, mark);
    write_answer(answer, of_outcome(outcome));
    1
}
