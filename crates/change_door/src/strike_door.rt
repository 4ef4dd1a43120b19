// Striking a row of a working table for C.
ghost use Rattle.std.specs.Prelude.{◌≡◌};
ghost use Rattle.change_meaning.specs.Bytes.{StrikeCall};
ghost use Rattle.star_spec.specs.Door.{door_returns};
ghost use Rattle.change_spec.specs.Door.{strike_door, strike_door_words};

use answer::{of_outcome, well_lent, write_answer};

// Striking through the door: the row's bit is cleared where nothing is refused. `means` says what the bytes and the words are worth.
#[unsafe(no_mangle)]
pub extern "C" fn star_strike(words: &mut [u64], row: u32, answer: &mut [u8]) -> u32
    ensures returned { result ≡ door_returns answer.old }
    ensures answered { answer.new ≡ strike_door words.old row answer.old }
    ensures rows { words.new ≡ strike_door_words words.old row answer.old }
    ensures means { StrikeCall words.old row answer.old answer.new words.new result }
{
    if !well_lent(answer) {
        return 0;
    }
    let outcome = change::strike(words, row);
    write_answer(answer, of_outcome(outcome));
    1
}
