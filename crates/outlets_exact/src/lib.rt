// The tree with exactly t rows at a vertex r on the machine: the weights are loaded, the start prefers rows at r, the others grow their forest U, a walk over the start fills the path matrix from r,
// and exchanges for rows of U take rows at r out until t are left.

#![tactic(auto)]

ghost use Rattle.std.specs.Prelude.{◌≡◌, is_some, is_ok};
ghost use Rattle.districts_theory.specs.Growing.{grown_forest};
ghost use Rattle.mst1.specs.Steps.Growth.{chosen_in};
ghost use Rattle.outlets_start.specs.Steps.Start.{graph_in};
ghost use Rattle.outlets_swaps.specs.Steps.Columns.{given_of};
ghost use Rattle.outlets_swaps.specs.Steps.Exchanges.{Ends};
ghost use Rattle.search_columns.specs.Steps.Integers.{integers_after};
ghost use Rattle.slice.specs.Slices.{size, component};
ghost use Rattle.table.specs.Loads.{loaded_row};
ghost use Rattle.outlets_exact.specs.Steps.Reduced.{reduced_from, joined_in, rows_in, Makes};

use slice::Slice;
use slice::rows::rows_among;

// Why no tree with exactly t rows at r is made: there is no tree at all, or none with exactly t.
#[derive(Clone, Copy)]
pub enum NotMade {
    NoTree,
    NoExactTree,
}

// The forest of the rows of a slice: that of one run, which has every position.
fn forest_of(
    left: &[u8],
    right: &[u8],
    weights: &[u64],
    first: usize,
    rows: Slice,
    n: usize,
) -> Slice
    ensures { let g = graph_in (loaded_row 1 left.now) (loaded_row 1 right.now) (component rows) n in
        component result ≡ grown_forest g (integers_after weights.now first) (component rows) }
{
    districts_forests::forests_of(left, right, weights, first, rows, n, &[1024])
}

// A tree over the rows of a slice with as many exchanges made as it has rows at r more than t; none where it has fewer. Rows of U alone come in.
fn reduce(
    n: u32,
    left: &[u8],
    right: &[u8],
    weight: &[u8],
    weights: &[u64],
    first: usize,
    r: u32,
    t: u32,
    used: Slice,
    at: Slice,
    tree: Slice,
) -> Option<Slice>
    ensures { let x = given_of left.now right.now weight.now weights.now first (component at) in
        Ends (reduced_from x (component used) (component tree) r n t) (is_some result) (chosen_in result) }
{
    let have = slice_words::count_rows(slice::and(tree, at));
    let least = t as usize;
    if have < least {
        return None;
    }
    if have == least {
        return Some(tree);
    }
    let away = slice::difference::without(used, at);
    let forest = forest_of(left, right, weights, first, away, n as usize);
    let mut own = [0u64; path::ALL_WORDS];
    path_walk::walk(left, right, tree, r, n, &mut own);
    outlets_swaps::reduce(
        n as usize,
        left,
        right,
        weight,
        weights,
        first,
        at,
        forest,
        have - least,
        tree,
        &mut own,
    )
}

// The tree over the rows of a slice among the first m.
pub fn make(
    n: u32,
    m: usize,
    rows: Slice,
    left: &[u8],
    right: &[u8],
    weight: &[u8],
    r: u32,
    t: u32,
) -> Result<Slice, NotMade>
    ensures { Makes (record { n = n; m = m; rows = component rows; left = left.now; right = right.now; weight = weight.now }) r t (joined_in result) (is_ok result) (rows_in result) }
{
    let mut weights = [0u64; table_loads::ALL];
    table_loads::put_prices(weight, &mut weights);
    let first = table_loads::sign_columns(&weights);
    let used = rows_among(m, rows);
    let start = outlets_start::start_of(left, right, &weights, first, used, n as usize, r);
    let Some(tree) = start.tree else {
        return Err(NotMade::NoTree);
    };
    let at = start.at;
    let reduced = reduce(
        n, left, right, weight, &weights, first, r, t, used, at, tree,
    );
    reduced.ok_or(NotMade::NoExactTree)
}
