// Slices lent as words: the rows in use of a working table, and a component written in place.
ghost use Rattle.std.specs.Prelude.{◌≡◌, get_or, length};
ghost use Rattle.rowset.specs.Words.{in_words};
ghost use Rattle.slice.specs.Slices.{component, written};

use crate::{BITS, SIZE, Slice, WORDS};
use std::array;

// Word k, 0 past the end.
fn word_at(words: &[u64], k: usize) -> u64
    ensures { result ≡ get_or words.now k 0 }
{
    words.get(k).copied().unwrap_or(0)
}

// The rows in use as a slice; a component that is not there is 0.
pub fn rows_in_use(words: &[u64]) -> Slice
    ensures { component result ≡ in_words words.now }
{
    Slice {
        words: array::from_fn(|k| word_at(words, k)),
    }
}

// Component i becomes b; outside 1 to 1,024 nothing changes.
pub fn write_row(words: &mut [u64; WORDS], i: usize, b: bool)
    ensures rows { in_words words.new ≡ written (in_words words.old) i b }
    ensures size { length words.new ≡ 16 }
{
    if i < 1 || SIZE < i {
        return;
    }
    let k = i - 1;
    let mask: u64 = 1 << (k % BITS);
    if b {
        words[k / BITS] |= mask;
    } else {
        words[k / BITS] &= !mask;
    }
}
