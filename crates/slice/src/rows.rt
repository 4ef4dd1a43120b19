// The rows of a table of m rows, and those of them that are in use, as a slice.
ghost use Rattle.std.specs.Prelude.{◌≡◌, ℕ, ◌+◌, ◌*◌, ◌<◌, leb};
ghost use Rattle.rowset.specs.Sets.{up_to, both};
ghost use Rattle.slice.specs.Slices.{size, bit, component};

use crate::{BITS, Slice};
use std::array;

// Word k of the slice whose components 1 to m are 1.
fn first_word(m: usize, k: usize) -> u64
    ensures { (j : ℕ) → j < 64 → bit result j ≡ leb (64 * k + j + 1) m }
{
    let last = m / BITS;
    if k < last {
        return u64::MAX;
    }
    if last < k {
        return 0;
    }
    (1 << (m % BITS)) - 1
}

// The slice whose components 1 to m are 1, all of them where m is above 1,024.
pub fn rows_to(m: usize) -> Slice
    ensures { component result ≡ both (up_to size) (up_to m) }
{
    Slice {
        words: array::from_fn(|k| first_word(m, k)),
    }
}

// The components 1 to m of x.
pub fn rows_among(m: usize, x: Slice) -> Slice
    ensures { component result ≡ both (up_to m) (component x) }
{
    crate::and(rows_to(m), x)
}
