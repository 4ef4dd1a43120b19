// The tree that the exchanges at a vertex r start from: it grows as MST1's does, but rows at r are chosen before all others; so it has as many rows at r as there can be.
// The ends stand in byte columns, which are loaded for MATCH; it gives the rows at r, and those of each vertex that is reached. The columns of weights are lent as a table's.

#![tactic(auto)]

ghost use Rattle.std.specs.Prelude.{◌-◌, ◌≤◌, cond, is_some, ◌≡◌};
ghost use Rattle.mst1.specs.Steps.Growth.{chosen_in};
ghost use Rattle.outlets_theory.specs.Degree.{touches};
ghost use Rattle.search_join.specs.Steps.Ends.{EachEnd};
ghost use Rattle.path_matrix.specs.Matrix.{matrix_column};
ghost use Rattle.rowset.specs.Columns.{width};
ghost use Rattle.rowset.specs.Integers.{integer_in};
ghost use Rattle.rowset.specs.Searches.{smallest};
ghost use Rattle.rowset.specs.Sets.{both, first_of, uppermost};
ghost use Rattle.slice.specs.Slices.{size, component};
ghost use Rattle.table.specs.Loads.{loaded_row};
ghost use Rattle.outlets_start.specs.Steps.Start.{graph_in, Starts};

use slice::{Slice, WORDS};

// The start: the rows of the tree, where there is one, and the rows of the table at r.
#[derive(Clone, Copy)]
pub struct Started {
    pub tree: Option<Slice>,
    pub at: Slice,
}

// The row of x to choose next, by FND of MIN: the uppermost lightest of those at r if there is one, else the uppermost lightest; 0 where x has no row.
fn preferred(weights: &[u64], first: usize, x: Slice, at: Slice) -> usize
    ensures { let w = integer_in (matrix_column weights.now) first (width - first) in
        result ≡ first_of (uppermost size (smallest size w (both (component x) (component at)))) (uppermost size (smallest size w (component x))) }
{
    let here = mst1::cheapest(weights, first, slice::and(x, at));
    if here == 0 {
        return mst1::cheapest(weights, first, x);
    }
    here
}

// The far end of row i: its right end where its left end is in the fragment, and else its left end.
fn far_end(left: &[u8], right: &[u8], ahead: bool, i: usize) -> u32
    ensures { result ≡ cond ahead (loaded_row 1 right.now i) (loaded_row 1 left.now i) }
{
    if ahead {
        return table_loads::end_at(right, i);
    }
    table_loads::end_at(left, i)
}

// The tree of n vertices, two or more. The columns of ends are loaded, and MATCH looks in so many words.
// The rows with exactly one end in the fragment are those that only one of x, the rows whose left end is in it, and y has. The three slices are changed in place.
fn grow(
    left: &[u8],
    right: &[u8],
    left_ends: &[u64; table_loads::ALL],
    right_ends: &[u64; table_loads::ALL],
    words: usize,
    weights: &[u64],
    first: usize,
    rows: Slice,
    at: Slice,
    n: usize,
    r: u32,
) -> Option<Slice>
    requires { let g = graph_in (loaded_row 1 left.now) (loaded_row 1 right.now) (component rows) n in
        (2 ≤ n) × (component at ≡ both (component rows) (touches g r))
        × EachEnd words left_ends.now (loaded_row 1 left.now) (component rows) × EachEnd words right_ends.now (loaded_row 1 right.now) (component rows) }
    ensures { let g = graph_in (loaded_row 1 left.now) (loaded_row 1 right.now) (component rows) n in
        let w = integer_in (matrix_column weights.now) first (width - first) in
        Starts g w r (is_some result) (chosen_in result) }
{
    let i = preferred(weights, first, rows, at);
    if i == 0 {
        return None;
    }
    let a = table_loads::end_at(left, i);
    let b = table_loads::end_at(right, i);
    let mut x = [0u64; WORDS];
    search_join::match_ends(&mut x, left_ends, a, &rows.words, words);
    search_join::match_ends(&mut x, left_ends, b, &rows.words, words);
    let mut y = [0u64; WORDS];
    search_join::match_ends(&mut y, right_ends, a, &rows.words, words);
    search_join::match_ends(&mut y, right_ends, b, &rows.words, words);
    let mut chosen = [0u64; WORDS];
    slice_words::put_row(&mut chosen, i);
    for k in 2..n {
        let crossing = slice::xor(Slice { words: x }, Slice { words: y });
        let j = preferred(weights, first, crossing, at);
        if j == 0 {
            return None;
        }
        let far = far_end(left, right, slice_words::row_in(&x, j), j);
        search_join::match_ends(&mut x, left_ends, far, &rows.words, words);
        search_join::match_ends(&mut y, right_ends, far, &rows.words, words);
        slice_words::put_row(&mut chosen, j);
    }
    Some(Slice { words: chosen })
}

// The start where the columns of ends are loaded. For one vertex no row is chosen.
fn start_by(
    left: &[u8],
    right: &[u8],
    left_ends: &[u64; table_loads::ALL],
    right_ends: &[u64; table_loads::ALL],
    words: usize,
    weights: &[u64],
    first: usize,
    rows: Slice,
    n: usize,
    r: u32,
) -> Started
    requires { EachEnd words left_ends.now (loaded_row 1 left.now) (component rows) × EachEnd words right_ends.now (loaded_row 1 right.now) (component rows) }
    ensures starts { let g = graph_in (loaded_row 1 left.now) (loaded_row 1 right.now) (component rows) n in
        let w = integer_in (matrix_column weights.now) first (width - first) in
        Starts g w r (is_some result.tree) (chosen_in result.tree) }
    ensures at { let g = graph_in (loaded_row 1 left.now) (loaded_row 1 right.now) (component rows) n in
        component result.at ≡ both (component rows) (touches g r) }
{
    let mut found = [0u64; WORDS];
    search_join::match_ends(&mut found, left_ends, r, &rows.words, words);
    search_join::match_ends(&mut found, right_ends, r, &rows.words, words);
    let at = Slice { words: found };
    let tree = match n {
        0 => None,
        1 => Some(Slice::empty()),
        _ => grow(
            left, right, left_ends, right_ends, words, weights, first, rows, at, n, r,
        ),
    };
    Started { tree, at }
}

// The start over the rows of a slice, whose ends stand in byte columns and whose weights the lent columns hold.
pub fn start_of(
    left: &[u8],
    right: &[u8],
    weights: &[u64],
    first: usize,
    rows: Slice,
    n: usize,
    r: u32,
) -> Started
    ensures starts { let g = graph_in (loaded_row 1 left.now) (loaded_row 1 right.now) (component rows) n in
        let w = integer_in (matrix_column weights.now) first (width - first) in
        Starts g w r (is_some result.tree) (chosen_in result.tree) }
    ensures at { let g = graph_in (loaded_row 1 left.now) (loaded_row 1 right.now) (component rows) n in
        component result.at ≡ both (component rows) (touches g r) }
{
    let mut left_ends = [0u64; table_loads::ALL];
    table_loads::put_ends(left, &mut left_ends);
    let mut right_ends = [0u64; table_loads::ALL];
    table_loads::put_ends(right, &mut right_ends);
    let words = search_join::words_for(&rows.words);
    start_by(
        left,
        right,
        &left_ends,
        &right_ends,
        words,
        weights,
        first,
        rows,
        n,
        r,
    )
}
