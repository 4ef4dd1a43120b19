// The exchanges that take rows at a vertex r out of a tree, one at a time, by the path matrix from r. For each row of a set, none of which is at r, two columns of numbers keep the dearest row at r on its path,
// found by MAX, and what their exchange costs. After an exchange the matrix is turned over, and only the rows for which the row that went out was kept are looked at anew.

#![tactic(auto)]

ghost use Rattle.std.specs.Prelude.{◌+◌, ◌-◌, ◌<◌, length, get_or, set, true, is_some, ◌≡◌};
ghost use Rattle.mst1.specs.Steps.Growth.{chosen_in};
ghost use Rattle.path_exchange.specs.Turned.{columns_turned};
ghost use Rattle.outlets_kept.specs.Steps.Offers.{cost_of, cheaper, cheapest_to};
ghost use Rattle.path_matrix.specs.Matrix.{matrix_column};
ghost use Rattle.rowset.specs.Columns.{width};
ghost use Rattle.rowset.specs.Integers.{integer_in};
ghost use Rattle.rowset.specs.Searches.{largest};
ghost use Rattle.rowset.specs.Sets.{both, uppermost};
ghost use Rattle.slice.specs.Slices.{size, component, written};
ghost use Rattle.outlets_swaps.specs.Steps.Columns.{given_of, pick_of, price_in};
ghost use Rattle.outlets_swaps.specs.Steps.Exchanges.{number_of, between, dearest, filled, costs, kept_as, swapped, first_state, exchanges_to, last_state, Ends};

use claim::flipped_weight;
use slice::{SIZE, Slice};

// 2 ^ 32, which is added to a cost, and 2 ^ 33, the cost where there is no exchange.
const ABOVE: u64 = 4294967296;

const NONE: u64 = 8589934592;

// A row that could come in, 0 where there is none, and what its exchange costs.
#[derive(Clone, Copy)]
struct Pick {
    row: usize,
    cost: u64,
}

// The number at place j of a column, counted from 0; 0 past its end.
fn number_at(column: &[usize], j: usize) -> usize
    ensures { result ≡ get_or column.now j 0 }
{
    column.get(j).copied().unwrap_or(0)
}

// FND of MAX: the uppermost of a slice's heaviest rows, 0 where it has none.
fn heaviest(weights: &[u64], first: usize, x: Slice) -> usize
    ensures { let w = integer_in (matrix_column weights.now) first (width - first) in
        result ≡ uppermost size (largest size w (component x)) }
{
    slice::fnd(search_extremes::max_from(weights, first, x))
}

// The search over the path and the rows at r: the dearest row at r on row i's path, the uppermost among equals; 0 where there is none.
fn dearest_at(
    left: &[u8],
    right: &[u8],
    weights: &[u64],
    first: usize,
    at: Slice,
    own: &[u64],
    i: usize,
) -> usize
    ensures { let w = integer_in (matrix_column weights.now) first (width - first) in
        result ≡ uppermost size (largest size w (both (between own.now left.now right.now i) (component at))) }
{
    let path = path_exchange::path_of(own, left, right, i);
    let here = slice::and(path, at);
    if slice::zero(here) {
        return 0;
    }
    heaviest(weights, first, here)
}

// 2 ^ 32 more than the weight of row f less that of row e; 2 ^ 33 where e is 0.
fn cost_of(weight: &[u8], f: usize, e: usize) -> u64
    ensures { result ≡ cost_of (price_in weight.now) f e }
{
    if e == 0 {
        return NONE;
    }
    let above = flipped_weight(weight, f) as u64;
    let below = flipped_weight(weight, e) as u64;
    ABOVE + above - below
}

// The row that would go out for row j + 1 and its cost are found and kept at place j.
fn find(
    left: &[u8],
    right: &[u8],
    weight: &[u8],
    weights: &[u64],
    first: usize,
    at: Slice,
    own: &[u64],
    j: usize,
    out: &mut [usize],
    cost: &mut [u64],
)
    requires { (j < length out.old) × (j < length cost.old) }
    ensures out { let x = given_of left.now right.now weight.now weights.now first (component at) in
        out.new ≡ set out.old j (dearest x own.now (j + 1)) }
    ensures cost { let x = given_of left.now right.now weight.now weights.now first (component at) in
        cost.new ≡ set cost.old j (costs x own.now (j + 1)) }
{
    let e = dearest_at(left, right, weights, first, at, own, j + 1);
    out[j] = e;
    cost[j] = cost_of(weight, j + 1, e);
}

// The rows of a slice are looked at.
fn find_all(
    left: &[u8],
    right: &[u8],
    weight: &[u8],
    weights: &[u64],
    first: usize,
    at: Slice,
    own: &[u64],
    rows: Slice,
    out: &mut [usize],
    cost: &mut [u64],
)
    requires { length out.old ≡ length cost.old }
    ensures out { let x = given_of left.now right.now weight.now weights.now first (component at) in
        out.new ≡ filled (component rows) (dearest x own.now) 0 out.old }
    ensures cost { let x = given_of left.now right.now weight.now weights.now first (component at) in
        cost.new ≡ filled (component rows) (costs x own.now) 0 cost.old }
{
    for j in 0..out.len() {
        if slice::get(rows, j + 1) {
            find(left, right, weight, weights, first, at, own, j, out, cost);
        }
    }
}

// The rows for which row e is kept are looked at anew.
fn find_again(
    left: &[u8],
    right: &[u8],
    weight: &[u8],
    weights: &[u64],
    first: usize,
    at: Slice,
    own: &[u64],
    e: usize,
    out: &mut [usize],
    cost: &mut [u64],
)
    requires { length out.old ≡ length cost.old }
    ensures out { let x = given_of left.now right.now weight.now weights.now first (component at) in
        out.new ≡ filled (kept_as out.old e) (dearest x own.now) 0 out.old }
    ensures cost { let x = given_of left.now right.now weight.now weights.now first (component at) in
        cost.new ≡ filled (kept_as out.old e) (costs x own.now) 0 cost.old }
{
    for j in 0..out.len() {
        if out[j] == e {
            find(left, right, weight, weights, first, at, own, j, out, cost);
        }
    }
}

// Row f where it costs less than what was picked before.
fn cheaper(best: Pick, f: usize, cost: u64) -> Pick
    ensures { pick_of result ≡ cheaper (pick_of best) f cost }
{
    if cost < best.cost {
        return Pick { row: f, cost };
    }
    best
}

// The row whose exchange costs least, the uppermost among equals; 0 where there is no exchange.
fn cheapest(cost: &[u64]) -> usize
    ensures { result ≡ (cheapest_to (number_of cost.now) (length cost.now)).row }
{
    let mut best = Pick { row: 0, cost: NONE };
    for (j, c) in cost.iter().enumerate() {
        best = cheaper(best, j + 1, *c);
    }
    best.row
}

// Row e goes out of a tree and row f comes in: the columns of the path matrix that have e are turned over by the ring.
fn swap(
    n: usize,
    left: &[u8],
    right: &[u8],
    e: usize,
    f: usize,
    tree: Slice,
    own: &mut [u64],
) -> Slice
    ensures chosen { component result ≡ swapped (component tree) e f }
    ensures own { own.new ≡ columns_turned own.old n e (written (between own.old left.now right.now f) f true) }
{
    let path = path_exchange::path_of(own, left, right, f);
    path_exchange::turn_columns(own, n, e, slice::put(path, f, true));
    slice::put(slice::put(tree, e, false), f, true)
}

// The tree after k exchanges of least cost, where so many can be made.
fn exchanges(
    n: usize,
    left: &[u8],
    right: &[u8],
    weight: &[u8],
    weights: &[u64],
    first: usize,
    at: Slice,
    k: usize,
    tree: Slice,
    own: &mut [u64],
    out: &mut [usize],
    cost: &mut [u64],
) -> Option<Slice>
    requires { length out.old ≡ length cost.old }
    ensures left { let x = given_of left.now right.now weight.now weights.now first (component at) in
        Ends (exchanges_to x n k (record { chosen = component tree; own = own.old; out = out.old; cost = cost.old })) (is_some result) (chosen_in result) }
    ensures own { let x = given_of left.now right.now weight.now weights.now first (component at) in
        own.new ≡ (last_state x n k (record { chosen = component tree; own = own.old; out = out.old; cost = cost.old })).own }
{
    let mut chosen = tree;
    for i in 0..k {
        let f = cheapest(cost);
        if f == 0 {
            return None;
        }
        let e = number_at(out, f - 1);
        chosen = swap(n, left, right, e, f, chosen, own);
        find_again(left, right, weight, weights, first, at, own, e, out, cost);
    }
    Some(chosen)
}

// The tree after k exchanges of least cost, where so many can be made, each for a row of a slice, which has no row at r, and for one of the rows at r. The path matrix lent is the tree's from r, and afterwards that after the last exchange that was made.
pub fn reduce(
    n: usize,
    left: &[u8],
    right: &[u8],
    weight: &[u8],
    weights: &[u64],
    first: usize,
    at: Slice,
    rest: Slice,
    k: usize,
    tree: Slice,
    own: &mut [u64],
) -> Option<Slice>
    ensures left { let x = given_of left.now right.now weight.now weights.now first (component at) in
        Ends (exchanges_to x n k (first_state x (component rest) (component tree) own.old)) (is_some result) (chosen_in result) }
    ensures own { let x = given_of left.now right.now weight.now weights.now first (component at) in
        own.new ≡ (last_state x n k (first_state x (component rest) (component tree) own.old)).own }
{
    let mut out = [0usize; SIZE];
    let mut cost = [NONE; SIZE];
    find_all(
        left, right, weight, weights, first, at, own, rest, &mut out, &mut cost,
    );
    exchanges(
        n, left, right, weight, weights, first, at, k, tree, own, &mut out, &mut cost,
    )
}
