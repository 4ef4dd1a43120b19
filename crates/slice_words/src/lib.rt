// Slices lent as words, read and changed in place: a slice that is visited row by row is not copied for each row.
// A component that is not there reads 0, and writing it changes nothing.

#![tactic(auto)]

ghost use Rattle.std.specs.Prelude.{ℕ, ◌≤◌, ◌<◌, true, false, ◌≡◌, length};
ghost use Rattle.rowset.specs.Sets.{one_of, uppermost, count};
ghost use Rattle.rowset.specs.Words.{in_words};
ghost use Rattle.slice.specs.Slices.{size, bit, component, written};

use slice::words::write_row;
use slice::{BITS, Slice};

// Component i of the slice.
pub fn row_in(words: &[u64], i: usize) -> bool
    ensures { result ≡ in_words words.now i }
{
    if i < 1 || slice::SIZE < i {
        return false;
    }
    let word = words.get((i - 1) / BITS).copied().unwrap_or(0);
    (word >> ((i - 1) % BITS)) % 2 == 1
}

// The number of rows of a slice.
pub fn count_rows(x: Slice) -> usize
    ensures { result ≡ count size (component x) }
{
    let mut count = 0;
    for word in &x.words {
        count += word.count_ones() as usize;
    }
    count
}

// Component i becomes 1.
pub fn put_row(words: &mut [u64; slice::WORDS], i: usize)
    ensures rows { in_words words.new ≡ written (in_words words.old) i true }
    ensures size { length words.new ≡ 16 }
{
    write_row(words, i, true);
}

// The place of the lowest bit of a word that is not 0.
fn lowest(w: u64) -> usize
    requires { 0 < w }
    ensures { (result < 64) × (bit w result ≡ true) × ((j : ℕ) → j < result → bit w j ≡ false) }
{
    w.trailing_zeros() as usize
}

// The place of the highest bit of a word that is not 0.
fn highest(w: u64) -> usize
    requires { 0 < w }
    ensures { (result < 64) × (bit w result ≡ true) × ((j : ℕ) → result < j → bit w j ≡ false) }
{
    w.ilog2() as usize
}

// The position of the last component that the slice has, 0 where it has none.
pub fn last_row(words: &[u64; slice::WORDS]) -> usize
    ensures { (result ≤ size) × (0 < result → in_words words.now result ≡ true) × ((i : ℕ) → result < i → in_words words.now i ≡ false) }
{
    for k in (0..slice::WORDS).rev() {
        let w = words[k];
        if w != 0 {
            return BITS * k + highest(w) + 1;
        }
    }
    0
}

// The position of the uppermost component that exactly one of two slices has, 0 where they have the same.
pub fn first_difference(x: &[u64; slice::WORDS], y: &[u64; slice::WORDS]) -> usize
    ensures { result ≡ uppermost size (one_of (in_words x.now) (in_words y.now)) }
{
    for k in 0..slice::WORDS {
        let w = x[k] ^ y[k];
        if w != 0 {
            return BITS * k + lowest(w) + 1;
        }
    }
    0
}
