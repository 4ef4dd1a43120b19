// The dearest of each detour on the machine: for each unmarked row FND of MAX over the path between its ends; then the unmarked rows from the lightest on (FND of MIN), each of which is the answer of the marked rows of its path that
// have none yet. The paths are read from CST's path matrix. The column of numbers is written once nothing can be refused any more.

#![tactic(auto)]

ghost use Rattle.std.specs.Prelude.{ℕ, ◌+◌, ◌≤◌, eqb, length, Bool, true, false, cond, ◌&&◌, ◌≡◌};
ghost use Rattle.rowset.specs.Bytes.{in_row};
ghost use Rattle.rowset.specs.Integers.{from_bits};
ghost use Rattle.rowset.specs.Words.{in_words};
ghost use Rattle.search_columns.specs.Steps.Integers.{integers_after};
ghost use Rattle.slice.specs.Slices.{size, component};
ghost use Rattle.in_use.specs.Tables.{table_in};
ghost use Rattle.star_spec.specs.Call.{Call, table_of};
ghost use Rattle.star_spec.specs.Mst1.{tree_built};
ghost use Rattle.table.specs.Loads.{loaded_row};
ghost use Rattle.cst.specs.Steps.Paths.{Walked};
ghost use Rattle.mst1.specs.Answers.{answer_of};
ghost use Rattle.detour_spec.specs.Detours.{number_at, numbers_of, lent_beside, detours, detour_rows};
ghost use Rattle.detour.specs.Steps.Machine.{dearest_in, replaced_in, next_in, beside_in, Put};

use in_use::InUse;
use refusal::Refusal;
use slice::rows::rows_among;
use slice::{Slice, difference};

// FND of MAX: the heaviest row on the path of row i, the uppermost among equals, where row i is one of the slice's rows, which are lent as words; else 0.
// `weights` has the words of the weight column as a table, of which the first columns are left out.
pub fn dearest_at(
    own: &[u64],
    weights: &[u64],
    first: usize,
    left: &[u8],
    right: &[u8],
    unmarked: &[u64],
    i: usize,
) -> usize
    ensures by_index { (U : ℕ → Bool) → U i ≡ in_words unmarked.now i → result ≡ dearest_in (integers_after weights.now first) own.now left.now right.now U i }
    ensures row { result ≤ size }
{
    if !slice_words::row_in(unmarked, i) {
        return 0;
    }
    let path = path_exchange::path_of(own, left, right, i);
    slice::fnd(search_extremes::max_from(weights, first, path))
}

// The number of each row of a slice is written, that of its dearest row, and 0 at every other.
fn write_dearest(
    own: &[u64],
    weights: &[u64],
    first: usize,
    left: &[u8],
    right: &[u8],
    unmarked: Slice,
    rows: &mut [u32],
)
    ensures { rows.new ≡ numbers_of (length rows.old) (dearest_in (integers_after weights.now first) own.now left.now right.now (component unmarked)) }
{
    for j in 0..rows.len() {
        rows[j] = dearest_at(own, weights, first, left, right, &unmarked.words, j + 1) as u32;
    }
}

// A number is put at each row of a slice.
fn put_each(rows: &mut [u32], hit: Slice, number: u32)
    requires { (i : ℕ) → component hit i ≡ true → i ≤ length rows.old }
    ensures { Put (component hit) number rows.old rows.new }
{
    let mut rest = hit;
    let mut k = slice::fnd(rest);
    while k != 0 {
        rows[k - 1] = number;
        rest = slice::put(rest, k, false);
        k = slice::fnd(rest);
    }
}

// FND of MIN: the lightest row of x, the uppermost among equals, while y has a row; else 0.
fn next_row(weights: &[u64], first: usize, x: Slice, y: Slice) -> usize
    ensures { result ≡ next_in (integers_after weights.now first) (component x) (component y) }
{
    if slice::zero(y) {
        return 0;
    }
    mst1::cheapest(weights, first, x)
}

// The number of each marked row is written, that of the lightest unmarked row whose path has it. At the marked rows there stand zeros before.
fn write_replacements(
    own: &[u64],
    weights: &[u64],
    first: usize,
    left: &[u8],
    right: &[u8],
    unmarked: Slice,
    marked: Slice,
    rows: &mut [u32],
)
    requires { (i : ℕ) → component marked i ≡ true → (i ≤ length rows.old) × (number_at rows.old i ≡ 0) }
    ensures { rows.new ≡ numbers_of (length rows.old) (λ i. cond (component marked i) (replaced_in (integers_after weights.now first) own.now left.now right.now (component unmarked) i) (number_at rows.old i)) }
{
    let mut x = unmarked;
    let mut y = marked;
    let mut f = next_row(weights, first, x, y);
    while f != 0 {
        let hit = slice::and(path_exchange::path_of(own, left, right, f), y);
        put_each(rows, hit, f as u32);
        x = slice::put(x, f, false);
        y = difference::without(y, hit);
        f = next_row(weights, first, x, y);
    }
}

// The numbers of all rows, by the path matrix of a claim: the marked rows are none past the column's end, and none of the unmarked ones. The weight column is one that can be loaded.
fn write_rows(
    own: &[u64],
    left: &[u8],
    right: &[u8],
    weight: &[u8],
    unmarked: Slice,
    marked: Slice,
    rows: &mut [u32],
)
    requires { (loaded_row 4 weight.now ≡ in_row 4 weight.now) × ((i : ℕ) → component marked i ≡ true → (i ≤ length rows.old) × (component unmarked i ≡ false)) }
    ensures { rows.new ≡ numbers_of (length rows.old) (beside_in weight.now own.now left.now right.now (component unmarked) (component marked)) }
{
    let mut weights = [0u64; table_loads::ALL];
    table_loads::put_prices(weight, &mut weights);
    let first = table_loads::sign_columns(&weights);
    write_dearest(own, &weights, first, left, right, unmarked, rows);
    write_replacements(own, &weights, first, left, right, unmarked, marked, rows);
}

// The 64 bits of the weight of a claim that is a spanning tree, and the numbers are written by its path matrix from vertex 1.
fn tell(
    own: &[u64],
    m: usize,
    in_use: Slice,
    left: &[u8],
    right: &[u8],
    weight: &[u8],
    mark: &[u8],
    rows: &mut [u32],
) -> u64
    requires { (loaded_row 4 weight.now ≡ in_row 4 weight.now) × (length rows.old ≡ m) }
    ensures { let call : ℕ → Bool → Call = λ n whole. table_of n m whole (component in_use) left.now right.now weight.now mark.now in
        ((n : ℕ) (whole : Bool) → Walked (call n whole) own.now → (tree_built (from_bits 64 result) ≡ detours (call n whole)) × (rows.new ≡ detour_rows (call n whole) rows.old)) }
{
    let used = rows_among(m, in_use);
    let marked = claim::claim_rows(mark, used);
    let unmarked = difference::without(used, marked);
    write_rows(own, left, right, weight, unmarked, marked, rows);
    claim::weigh(weight, marked)
}

// The table with a column of so many numbers lent beside it: its columns are handed in for all rows only where this one has a number for each.
fn beside(table: InUse, count: usize) -> InUse
    ensures { (result.m ≡ table.m) × (result.whole ≡ (table.whole && eqb count table.m)) × (component result.rows ≡ component table.rows) }
{
    InUse {
        whole: table.whole && count == table.m,
        ..table
    }
}

// The dearest of each detour over a table of either kind: CST's refusal, and the numbers stay as they were; or the claim's weight, and a number is written for each row.
pub fn detours(
    n: u32,
    table: InUse,
    left: &[u8],
    right: &[u8],
    weight: &[u8],
    mark: &[u8],
    rows: &mut [u32],
) -> Result<u64, Refusal>
    ensures { let c = lent_beside (table_in n table left.now right.now weight.now mark.now) rows.old in
        (answer_of result ≡ detours c) × (rows.new ≡ detour_rows c rows.old) }
{
    let lent = beside(table, rows.len());
    let words = path::ALL_WORDS;
    let mut own = [0u64; path::ALL_WORDS];
    path::path_own(n, lent, left, right, weight, mark, 1, words, &mut own)?;
    Ok(tell(&own, lent.m, lent.rows, left, right, weight, mark, rows))
}
