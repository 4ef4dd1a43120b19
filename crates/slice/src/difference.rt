// One slice without another: x and not y.
ghost use Rattle.std.specs.Prelude.{◌≡◌};
ghost use Rattle.rowset.specs.Sets.{without};
ghost use Rattle.slice.specs.Slices.{component};

use crate::Slice;
use std::array;

// The components of x that y does not have.
pub fn without(x: Slice, y: Slice) -> Slice
    ensures { component result ≡ without (component x) (component y) }
{
    Slice {
        words: array::from_fn(|k| x.words[k] & !y.words[k]),
    }
}
