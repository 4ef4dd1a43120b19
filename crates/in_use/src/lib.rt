// A table of either kind by one value: its number of rows, whether the rows in use were handed in for all of them, and which are in use. Every procedure has one entrance, which takes it beside the columns.

#![tactic(auto)]

ghost use Rattle.std.specs.Prelude.{true, ◌≡◌, eqb, length};
ghost use Rattle.rowset.specs.Sets.{up_to, both};
ghost use Rattle.rowset.specs.Words.{column_words, in_words};
ghost use Rattle.slice.specs.Slices.{component};
ghost use Rattle.star_spec.specs.Refusals.{max_rows};

use slice::rows::rows_to;
use slice::words::rows_in_use;
use slice::{SIZE, Slice, WORDS};

// m, the number of rows; whether the rows in use were handed in for all of them; the rows in use.
#[derive(Clone, Copy)]
pub struct InUse {
    pub m: usize,
    pub whole: bool,
    pub rows: Slice,
}

impl InUse {
    // A plain table of m rows: all in use, of 1 to 1,024.
    pub fn plain(m: usize) -> InUse
        ensures rows { (result.m ≡ m) × (result.whole ≡ true) }
        ensures used { component result.rows ≡ both (up_to max_rows) (up_to m) }
    {
        InUse {
            m: m,
            whole: true,
            rows: rows_to(m),
        }
    }

    // A working table: 1,024 rows, and the rows in use lent as sixteen words.
    pub fn working(words: &[u64]) -> InUse
        ensures rows { (result.m ≡ max_rows) × (result.whole ≡ eqb (length words.now) column_words) }
        ensures used { component result.rows ≡ in_words words.now }
    {
        InUse {
            m: SIZE,
            whole: words.len() == WORDS,
            rows: rows_in_use(words),
        }
    }
}
