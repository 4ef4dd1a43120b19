// STEP over a slice that is lent as words: the slice is changed in place and not copied for each row.

#![tactic(auto)]

ghost use Rattle.std.specs.Prelude.{◌≡◌, length};
ghost use Rattle.rowset.specs.Sets.{take_out, uppermost};
ghost use Rattle.rowset.specs.Words.{in_words};
ghost use Rattle.slice.specs.Slices.{size};

use slice::words::write_row;
use slice_words::first_difference;

// STEP: the position of the uppermost component, where the slice first differs from Θ, 0 where it is Θ; that component is cleared.
pub fn step_words(words: &mut [u64; slice::WORDS]) -> usize
    ensures at { result ≡ uppermost size (in_words words.old) }
    ensures rows { in_words words.new ≡ take_out (in_words words.old) (uppermost size (in_words words.old)) }
    ensures size { length words.new ≡ 16 }
{
    let none = [0u64; slice::WORDS];
    let at = first_difference(words, &none);
    write_row(words, at, false);
    at
}
