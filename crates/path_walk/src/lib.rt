// MatrixPath's walk: from the source vertex over rows whose ends stand in byte columns, which fills a path matrix.
// It is the procedure MatrixPath of source 000, in whose words `lefts` is N1, `rights` N2 and `rows` T; crate `path` has what is checked before it. Where it departs: the rows with an end reached and not yet taken, which the paper keeps in X
// and steps through, are those that only one of N1 and N2 has (xor), and the uppermost is taken, as STEP takes it; so N1, N2 and Y are not cleared at a row. A vertex's code is its number, so that no MATCH over codes is needed. R is not cleared: the column of each vertex that is reached is written.

#![tactic(auto)]

ghost use Rattle.std.specs.Prelude.{true, cond, ◌≡◌};
ghost use Rattle.path_matrix.specs.Matrix.{matrix_column, with_column};
ghost use Rattle.rowset.specs.Words.{in_words};
ghost use Rattle.search_join.specs.Steps.Ends.{EachEnd};
ghost use Rattle.slice.specs.Slices.{component, written};
ghost use Rattle.table.specs.Loads.{loaded_row};
ghost use Rattle.path_walk.specs.Steps.Walks.{walk, Walked};

use slice::{Slice, WORDS};

// The first of two vertices where the test holds, else the second.
fn choose(test: bool, first: u32, second: u32) -> u32
    ensures { result ≡ cond test first second }
{
    if test {
        return first;
    }
    second
}

// Row i is taken from vertex u to vertex v, whose path is that of u with row i.
fn lead(own: &mut [u64], i: usize, u: u32, v: u32)
    ensures { own.new ≡ with_column own.old v (written (matrix_column own.old u) i true) }
{
    let path = path_matrix::read_column(own, u as usize);
    path_matrix::write_column(own, v as usize, path);
    path_matrix::put_component(own, v as usize, i);
}

// The walk, where the columns of ends are loaded. At each step the uppermost row with exactly one end reached is taken from that end to the other; such rows are those that only one of `lefts`, the rows whose left end is reached, and `rights` has.
// With each vertex come the rows that MATCH gives for it, in so many words. Where there is no such row, the steps that are left change nothing. The three slices are changed in place.
fn walk_found(
    left: &[u8],
    right: &[u8],
    left_ends: &[u64; table_loads::ALL],
    right_ends: &[u64; table_loads::ALL],
    rows: &[u64; WORDS],
    words: usize,
    s: u32,
    n: u32,
    own: &mut [u64],
) -> Slice
    ensures { EachEnd words left_ends.now (loaded_row 1 left.now) (in_words rows.now) → EachEnd words right_ends.now (loaded_row 1 right.now) (in_words rows.now) → Walked (walk (loaded_row 1 left.now) (loaded_row 1 right.now) (in_words rows.now) s own.old n) (component result) own.new }
{
    path_matrix::write_column(own, s as usize, Slice::empty());
    let mut lefts = [0u64; WORDS];
    search_join::match_ends(&mut lefts, left_ends, s, rows, words);
    let mut rights = [0u64; WORDS];
    search_join::match_ends(&mut rights, right_ends, s, rows, words);
    let mut reached = [0u64; WORDS];
    slice_words::put_row(&mut reached, s as usize);
    for k in 0..n {
        let i = slice_words::first_difference(&lefts, &rights);
        if i == 0 {
            return Slice { words: reached };
        }
        let ahead = slice_words::row_in(&lefts, i);
        let a = table_loads::end_at(left, i);
        let b = table_loads::end_at(right, i);
        let u = choose(ahead, a, b);
        let v = choose(ahead, b, a);
        lead(own, i, u, v);
        search_join::match_ends(&mut lefts, left_ends, v, rows, words);
        search_join::match_ends(&mut rights, right_ends, v, rows, words);
        slice_words::put_row(&mut reached, v as usize);
    }
    Slice { words: reached }
}

// The walk of n steps from vertex s over rows whose ends stand in byte columns: the vertices reached. The ends are loaded for MATCH.
pub fn walk(left: &[u8], right: &[u8], rows: Slice, s: u32, n: u32, own: &mut [u64]) -> Slice
    ensures reached { component result ≡ (walk (loaded_row 1 left.now) (loaded_row 1 right.now) (component rows) s own.old n).reached }
    ensures words { own.new ≡ (walk (loaded_row 1 left.now) (loaded_row 1 right.now) (component rows) s own.old n).words }
{
    let mut left_ends = [0u64; table_loads::ALL];
    table_loads::put_ends(left, &mut left_ends);
    let mut right_ends = [0u64; table_loads::ALL];
    table_loads::put_ends(right, &mut right_ends);
    let words = search_join::words_for(&rows.words);
    walk_found(
        left,
        right,
        &left_ends,
        &right_ends,
        &rows.words,
        words,
        s,
        n,
        own,
    )
}
