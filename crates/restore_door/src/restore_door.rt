// A struck row of a working table put back into use, for C.
ghost use Rattle.std.specs.Prelude.{◌≡◌};
ghost use Rattle.restore_spec.specs.Bytes.{RestoreCall};
ghost use Rattle.restore_spec.specs.Restoring.{restore_door, restore_door_words};
ghost use Rattle.star_spec.specs.Door.{door_returns};

use answer::{of_outcome, well_lent, write_answer};

// Restoring through the door: the row's bit is set where nothing is refused. `means` says what the bytes and the words are worth.
#[unsafe(no_mangle)]
pub extern "C" fn star_restore(words: &mut [u64], row: u32, answer: &mut [u8]) -> u32
    ensures returned { result ≡ door_returns answer.old }
    ensures answered { answer.new ≡ restore_door words.old row answer.old }
    ensures rows { words.new ≡ restore_door_words words.old row answer.old }
    ensures means { RestoreCall words.old row answer.old answer.new words.new result }
{
    if !well_lent(answer) {
        return 0;
    }
    let outcome = restore::restore(words, row);
    write_answer(answer, of_outcome(outcome));
    1
}
