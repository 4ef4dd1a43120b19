// What CST finds for a row on the tree path between its ends, and the row that it keeps of those with an equal one.

#![tactic(auto)]

ghost use Rattle.std.specs.Prelude.{◌≡◌, ◌-◌};
ghost use Rattle.rowset.specs.Bytes.{in_row};
ghost use Rattle.rowset.specs.Columns.{width};
ghost use Rattle.rowset.specs.Integers.{from_bits};
ghost use Rattle.rowset.specs.Searches.{greater_than, same_as};
ghost use Rattle.search_columns.specs.Steps.Integers.{integers_after};
ghost use Rattle.slice.specs.Slices.{component};
ghost use Rattle.cst_compare.specs.Steps.Compared.{found_on, remembered};

use search_great::Compared;
use slice::Slice;
use table_checks::{row_byte, row_weight};

// The rows on the tree path between row i's ends that are heavier than row i, and those that weigh as much. `weights` has the words of the weight column as a table, of which the first columns are left out, and of row i's weight as many bits.
pub fn compared_rows(
    matrix: &[u64],
    weights: &[u64],
    first: usize,
    left: &[u8],
    right: &[u8],
    weight: &[u8],
    i: usize,
) -> Compared
    ensures greater { component result.greater ≡ found_on greater_than (integers_after weights.now first) (from_bits (width - first) (in_row 4 weight.now i)) matrix.now left.now right.now i }
    ensures equal { component result.equal ≡ found_on same_as (integers_after weights.now first) (from_bits (width - first) (in_row 4 weight.now i)) matrix.now left.now right.now i }
{
    let node1 = row_byte(left, i) as usize;
    let node2 = row_byte(right, i) as usize;
    let w = row_weight(weight, i);
    let x = slice::xor(
        path_matrix::read_column(matrix, node1),
        path_matrix::read_column(matrix, node2),
    );
    search_great::great_from(weights, first, w, x)
}

// The row that was found already to have an equal row on its path; else row i, if there are rows equal to it; 0 where there is none.
pub fn remember(found: usize, equal: Slice, i: usize) -> usize
    ensures { result ≡ remembered found (component equal) i }
{
    if found != 0 {
        return found;
    }
    if slice::zero(equal) { 0 } else { i }
}
