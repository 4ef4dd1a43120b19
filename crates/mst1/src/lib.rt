// MST1, the tree builder: it grows a tree from the uppermost row of least weight, by the uppermost row of least weight among those with exactly one end in the fragment.
// It is the procedure MST1 of source 001, in whose words `lefts` is N1, `rights` N2, `chosen` R and `rows` S. Where it departs: S stays as it is, since the rows with exactly one end in the fragment are
// those that only one of N1 and N2 has (xor); so MATCH is asked for the far end of a row alone once the first row is there, as the near one was matched before; and a table without a tree is told.

#![tactic(auto)]

ghost use Rattle.std.specs.Prelude.{◌≡◌, true, ◌-◌, ◌≤◌, is_some};
ghost use Rattle.search_join.specs.Steps.Ends.{EachEnd};
ghost use Rattle.rowset.specs.Integers.{integer_in, signed};
ghost use Rattle.rowset.specs.Searches.{smallest};
ghost use Rattle.rowset.specs.Sets.{empty, uppermost};
ghost use Rattle.path_matrix.specs.Matrix.{matrix_column};
ghost use Rattle.slice.specs.Slices.{size, component};
ghost use Rattle.star_spec.specs.Mst1.{mst1, mst1_marks};
ghost use Rattle.in_use.specs.Tables.{table_in};
ghost use Rattle.table.specs.Loads.{loaded_row};
ghost use Rattle.table.specs.Tables.{width};
ghost use Rattle.search_columns.specs.Steps.Integers.{integers_after};
ghost use Rattle.mst1.specs.Steps.Growth.{graph_by, loaded_graph, chosen_in, Grows, Reached, Begun};
ghost use Rattle.mst1.specs.Answers.{answer_of};

use in_use::InUse;
use refusal::{Cause, Refusal};
use slice::{Slice, WORDS};

// A fragment: the rows whose left end is in it, the rows whose right end is, and the chosen rows.
#[derive(Clone, Copy)]
struct Fragment {
    lefts: Slice,
    rights: Slice,
    chosen: Slice,
}

// FND of MIN over the columns after the first ones: the uppermost row of x of least weight, 0 where x has no row.
pub fn cheapest(weight: &[u64], first: usize, x: Slice) -> usize
    ensures { result ≡ uppermost size (smallest size (integer_in (matrix_column weight.now) first (width - first)) (component x)) }
{
    slice::fnd(search_extremes::min_from(weight, first, x))
}

// The fragment of row i: both its ends, and with each the rows that MATCH gives for it, in so many words.
fn begin(
    left: &[u8],
    right: &[u8],
    left_ends: &[u64; table_loads::ALL],
    right_ends: &[u64; table_loads::ALL],
    rows: Slice,
    words: usize,
    i: usize,
) -> Fragment
    ensures { EachEnd words left_ends.now (loaded_row 1 left.now) (component rows) → EachEnd words right_ends.now (loaded_row 1 right.now) (component rows) → Begun (loaded_row 1 left.now) (loaded_row 1 right.now) (component rows) i (component result.lefts) (component result.rights) (component result.chosen) }
{
    let u = table_loads::end_at(left, i);
    let v = table_loads::end_at(right, i);
    let mut lefts = [0u64; WORDS];
    search_join::match_ends(&mut lefts, left_ends, u, &rows.words, words);
    search_join::match_ends(&mut lefts, left_ends, v, &rows.words, words);
    let mut rights = [0u64; WORDS];
    search_join::match_ends(&mut rights, right_ends, u, &rows.words, words);
    search_join::match_ends(&mut rights, right_ends, v, &rows.words, words);
    Fragment {
        lefts: Slice { words: lefts },
        rights: Slice { words: rights },
        chosen: slice::put(Slice::empty(), i, true),
    }
}

// The tree of n vertices that grows from a fragment of two. The rows with exactly one end in the fragment are those that only one of `lefts` and `rights` has; with each new vertex come the rows that
// MATCH gives for it. The three slices are changed in place.
fn grow_from(
    left: &[u8],
    right: &[u8],
    left_ends: &[u64; table_loads::ALL],
    right_ends: &[u64; table_loads::ALL],
    weight: &[u64],
    first: usize,
    rows: Slice,
    words: usize,
    n: usize,
    start: Fragment,
) -> Option<Slice>
    requires { (2 ≤ n) × EachEnd words left_ends.now (loaded_row 1 left.now) (component rows) × EachEnd words right_ends.now (loaded_row 1 right.now) (component rows) × Reached (graph_by (loaded_row 1 left.now) (loaded_row 1 right.now) rows n) (integers_after weight.now first) 2 (component start.lefts) (component start.rights) (component start.chosen) }
    ensures { Grows (graph_by (loaded_row 1 left.now) (loaded_row 1 right.now) rows n) (integers_after weight.now first) (is_some result) (chosen_in result) }
{
    let mut lefts = start.lefts.words;
    let mut rights = start.rights.words;
    let mut chosen = start.chosen.words;
    for k in 2..n {
        let i = cheapest(
            weight,
            first,
            slice::xor(Slice { words: lefts }, Slice { words: rights }),
        );
        if i == 0 {
            return None;
        }
        let far = if slice_words::row_in(&lefts, i) {
            table_loads::end_at(right, i)
        } else {
            table_loads::end_at(left, i)
        };
        search_join::match_ends(&mut lefts, left_ends, far, &rows.words, words);
        search_join::match_ends(&mut rights, right_ends, far, &rows.words, words);
        slice_words::put_row(&mut chosen, i);
    }
    Some(Slice { words: chosen })
}

// The tree of n vertices over the rows of a slice, with the ends that the byte columns hold, which are loaded for MATCH; the weights are lent as columns, of which the first are left out. For one vertex no row is chosen.
pub fn grow_tree(
    left: &[u8],
    right: &[u8],
    weight: &[u64],
    first: usize,
    rows: Slice,
    n: usize,
) -> Option<Slice>
    ensures { Grows (graph_by (loaded_row 1 left.now) (loaded_row 1 right.now) rows n) (integers_after weight.now first) (is_some result) (chosen_in result) }
{
    if n == 0 {
        return None;
    }
    if n == 1 {
        return Some(Slice::empty());
    }
    let i = cheapest(weight, first, rows);
    if i == 0 {
        return None;
    }
    let mut left_ends = [0u64; table_loads::ALL];
    table_loads::put_ends(left, &mut left_ends);
    let mut right_ends = [0u64; table_loads::ALL];
    table_loads::put_ends(right, &mut right_ends);
    let words = search_join::words_for(&rows.words);
    let start = begin(left, right, &left_ends, &right_ends, rows, words, i);
    grow_from(
        left,
        right,
        &left_ends,
        &right_ends,
        weight,
        first,
        rows,
        words,
        n,
        start,
    )
}

// The tree of n vertices over the rows of a slice among the first m, by the weights as they are loaded. MIN leaves out the columns on the left that only repeat the sign.
pub fn tree_of(
    n: u32,
    m: usize,
    rows: Slice,
    left: &[u8],
    right: &[u8],
    weight: &[u8],
) -> Option<Slice>
    ensures { Grows (loaded_graph n m (component rows) left.now right.now) (λ i. signed (loaded_row 4 weight.now i)) (is_some result) (chosen_in result) }
{
    let mut weights = [0u64; table_loads::ALL];
    table_loads::put_prices(weight, &mut weights);
    let first = table_loads::sign_columns(&weights);
    let used = slice::rows::rows_among(m, rows);
    grow_tree(left, right, &weights, first, used, n as usize)
}

// MST1 over a table of either kind: the refusal, and the marks stay as they were; or the tree's weight, and the marks are 1 for each chosen row and 0 for every other.
pub fn mst1(
    n: u32,
    table: InUse,
    left: &[u8],
    right: &[u8],
    weight: &[u8],
    mark: &mut [u8],
) -> Result<u64, Refusal>
    ensures { let c = table_in n table left.now right.now weight.now mark.old in
        (answer_of result ≡ mst1 c) × (mark.new ≡ mst1_marks c) }
{
    table_checks::table_check(
        n,
        table.m,
        table.whole,
        table.rows,
        left,
        right,
        weight,
        mark,
    )?;
    let Some(chosen) = tree_of(n, table.m, table.rows, left, right, weight) else {
        return Err(Refusal::of(Cause::NoNetwork as u32));
    };
    claim::write_claim(mark, chosen);
    Ok(claim::weigh(weight, chosen))
}
