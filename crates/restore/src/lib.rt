// A struck row of a working table put back into use, on lent words. A call that is refused changes nothing.

#![tactic(auto)]

ghost use Rattle.std.specs.Prelude.{◌≡◌};
ghost use Rattle.refusal.specs.Outcomes.{refusal_of};
ghost use Rattle.restore_spec.specs.Restoring.{not_struck, restore_refusal, restored_words};

use refusal::{Cause, Refusal};
use slice::words::rows_in_use;
use slice::{SIZE, WORDS};

// Whether a row is in use, or none of 1 to 1,024.
fn not_struck(used: bool, row: usize) -> bool
    ensures { result ≡ not_struck used row }
{
    used || row == 0 || SIZE < row
}

// Restoring: only the row's bit is set. Refused 27 where the row is in use or none of 1 to 1,024, then 3 where the words are not sixteen.
pub fn restore(words: &mut [u64], row: u32) -> Result<(), Refusal>
    ensures answer { refusal_of result ≡ restore_refusal words.old row }
    ensures rows { words.new ≡ restored_words words.old row }
{
    let x = rows_in_use(words);
    let used = slice::get(x, row as usize);
    if not_struck(used, row as usize) {
        return Err(Refusal::of(Cause::NotStruck as u32));
    }
    if words.len() != WORDS {
        return Err(Refusal::of(Cause::BadLengths as u32));
    }
    change::write_rows(words, slice::put(x, row as usize, true));
    Ok(())
}
