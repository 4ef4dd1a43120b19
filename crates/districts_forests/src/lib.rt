// The forests of runs of rows: each grows as MST1 grows a tree, by the same steps, with the rows that MATCH gives for each vertex, and where no row crosses it begins anew.

#![tactic(auto)]

ghost use Rattle.std.specs.Prelude.{◌≡◌};
ghost use Rattle.districts_theory.specs.Districts.{forests};
ghost use Rattle.districts_theory.specs.Growing.{grown_forest};
ghost use Rattle.search_join.specs.Steps.Ends.{ends_in, EachEnd};
ghost use Rattle.search_columns.specs.Steps.Integers.{integers_after};
ghost use Rattle.mst1.specs.Steps.Growth.{graph_by};
ghost use Rattle.rowset.specs.Searches.{smallest};
ghost use Rattle.rowset.specs.Sets.{up_to, both, one_of, without, first_of, uppermost};
ghost use Rattle.slice.specs.Slices.{size, component};
ghost use Rattle.table.specs.Loads.{loaded_row};

use slice::difference::without;
use slice::rows::rows_to;
use slice::{Slice, WORDS};

// The row that a forest of `rows` takes next: the uppermost of least weight with exactly one end in the fragment, else with neither end in it, 0 where there is none.
// `lefts` and `rights` are the rows whose left and whose right end is in the fragment.
fn next_row(weight: &[u64], first: usize, rows: Slice, lefts: Slice, rights: Slice) -> usize
    ensures { let w = integers_after weight.now first in
        result ≡ first_of (uppermost size (smallest size w (one_of (component lefts) (component rights)))) (uppermost size (smallest size w (without (without (component rows) (component lefts)) (component rights)))) }
{
    let i = mst1::cheapest(weight, first, slice::xor(lefts, rights));
    if i != 0 {
        return i;
    }
    mst1::cheapest(weight, first, without(without(rows, lefts), rights))
}

// The forest of the rows of a slice; of the weights the first columns are left out. It has at most n rows. The columns of ends are loaded, and MATCH looks in so many words. The three slices are changed in place.
fn grow_forest(
    left: &[u8],
    right: &[u8],
    left_ends: &[u64; table_loads::ALL],
    right_ends: &[u64; table_loads::ALL],
    weight: &[u64],
    first: usize,
    rows: Slice,
    words: usize,
    n: usize,
) -> Slice
    requires { EachEnd words left_ends.now (loaded_row 1 left.now) (component rows) × EachEnd words right_ends.now (loaded_row 1 right.now) (component rows) }
    ensures { component result ≡ grown_forest (graph_by (loaded_row 1 left.now) (loaded_row 1 right.now) rows n) (integers_after weight.now first) (component rows) }
{
    let mut lefts = [0u64; WORDS];
    let mut rights = [0u64; WORDS];
    let mut chosen = [0u64; WORDS];
    for k in 0..n {
        let i = next_row(
            weight,
            first,
            rows,
            Slice { words: lefts },
            Slice { words: rights },
        );
        if i == 0 {
            return Slice { words: chosen };
        }
        let u = table_loads::end_at(left, i);
        let v = table_loads::end_at(right, i);
        search_join::match_ends(&mut lefts, left_ends, u, &rows.words, words);
        search_join::match_ends(&mut lefts, left_ends, v, &rows.words, words);
        search_join::match_ends(&mut rights, right_ends, u, &rows.words, words);
        search_join::match_ends(&mut rights, right_ends, v, &rows.words, words);
        slice_words::put_row(&mut chosen, i);
    }
    Slice { words: chosen }
}

// The same for any rows of columns that hold these ends.
fn forest_of(
    left: &[u8],
    right: &[u8],
    left_ends: &[u64; table_loads::ALL],
    right_ends: &[u64; table_loads::ALL],
    weight: &[u64],
    first: usize,
    rows: Slice,
    n: usize,
) -> Slice
    requires { (ends_in left_ends.now ≡ loaded_row 1 left.now) × (ends_in right_ends.now ≡ loaded_row 1 right.now) }
    ensures { component result ≡ grown_forest (graph_by (loaded_row 1 left.now) (loaded_row 1 right.now) rows n) (integers_after weight.now first) (component rows) }
{
    let words = search_join::words_for(&rows.words);
    grow_forest(
        left, right, left_ends, right_ends, weight, first, rows, words, n,
    )
}

// The rows of a slice at positions p + 1 to q.
fn run_of(rows: Slice, p: usize, q: usize) -> Slice
    ensures { component result ≡ both (component rows) (without (up_to q) (up_to p)) }
{
    slice::and(rows, without(rows_to(q), rows_to(p)))
}

// The forests of the runs that have these ends, of the rows of a slice, where the columns of ends are loaded.
fn forests_in(
    left: &[u8],
    right: &[u8],
    left_ends: &[u64; table_loads::ALL],
    right_ends: &[u64; table_loads::ALL],
    weight: &[u64],
    first: usize,
    rows: Slice,
    n: usize,
    ends: &[u32],
) -> Slice
    requires { (ends_in left_ends.now ≡ loaded_row 1 left.now) × (ends_in right_ends.now ≡ loaded_row 1 right.now) }
    ensures { component result ≡ forests (graph_by (loaded_row 1 left.now) (loaded_row 1 right.now) rows n) (integers_after weight.now first) ends.now }
{
    let mut all = Slice::empty();
    let mut p: usize = 0;
    for end in ends {
        let q = *end as usize;
        let run = run_of(rows, p, q);
        let forest = forest_of(left, right, left_ends, right_ends, weight, first, run, n);
        all = slice::or(all, forest);
        p = q;
    }
    all
}

// The forests of the runs that have these ends, of the rows of a slice, over byte columns of ends, which are loaded for MATCH, and lent columns of weights; of the weights the first columns are left out.
pub fn forests_of(
    left: &[u8],
    right: &[u8],
    weight: &[u64],
    first: usize,
    rows: Slice,
    n: usize,
    ends: &[u32],
) -> Slice
    ensures { component result ≡ forests (graph_by (loaded_row 1 left.now) (loaded_row 1 right.now) rows n) (integers_after weight.now first) ends.now }
{
    let mut left_ends = [0u64; table_loads::ALL];
    table_loads::put_ends(left, &mut left_ends);
    let mut right_ends = [0u64; table_loads::ALL];
    table_loads::put_ends(right, &mut right_ends);
    forests_in(
        left,
        right,
        &left_ends,
        &right_ends,
        weight,
        first,
        rows,
        n,
        ends,
    )
}
