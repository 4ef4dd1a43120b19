// The best exchange on the machine: for each unmarked row FND of MAX over the path between its ends, and of these exchanges the one that saves most is kept; the least total is that of the tree that MST1 grows. Nothing lent is written.

#![tactic(auto)]

ghost use Rattle.std.specs.Prelude.{ℕ, ◌-◌, ◌≤◌, ltb, Bool, true, cond, ◌≡◌};
ghost use Rattle.rowset.specs.Bytes.{in_row};
ghost use Rattle.rowset.specs.Words.{in_words};
ghost use Rattle.rowset.specs.Steps.Flipped.{flipped};
ghost use Rattle.search_columns.specs.Steps.Integers.{integers_after};
ghost use Rattle.slice.specs.Slices.{size, component};
ghost use Rattle.in_use.specs.Tables.{table_in};
ghost use Rattle.star_spec.specs.Call.{Call, table_of};
ghost use Rattle.table.specs.Loads.{loaded_row};
ghost use Rattle.cst.specs.Steps.Paths.{Walked};
ghost use Rattle.detour.specs.Steps.Machine.{dearest_in};
ghost use Rattle.best_spec.specs.Best.{best};
ghost use Rattle.best.specs.Answers.{found_of, answer_of};
ghost use Rattle.best.specs.Steps.Picks.{pick_of, better_of, look_at, best_to, Small};

use claim::flipped_weight;
use in_use::InUse;
use refusal::Refusal;
use slice::rows::rows_among;
use slice::{Slice, difference};

// A claim that no exchange makes lighter: the 64 bits of its weight and of the least total.
#[derive(Clone, Copy)]
pub struct Stay {
    pub weight: u64,
    pub least: u64,
}

// The exchange that saves most: the rows out and in, what it saves, and the 64 bits of the least total.
#[derive(Clone, Copy)]
pub struct Save {
    pub out: u32,
    pub into: u32,
    pub saving: u32,
    pub least: u64,
}

// What is found: no exchange saves, or the one that saves most.
#[derive(Clone, Copy)]
pub enum Found {
    Stays(Stay),
    Saves(Save),
}

// The row in that is kept, the row out for it, and what their exchange saves; zeros where none saves.
#[derive(Clone, Copy)]
struct Pick {
    row: usize,
    out: usize,
    saving: u32,
}

// How much more row e weighs than row f; 0 where it does not weigh more. The difference of weights is that of flipped weights.
fn gain(weight: &[u8], e: usize, f: usize) -> u32
    ensures { result ≡ flipped (in_row 4 weight.now e) - flipped (in_row 4 weight.now f) }
{
    let above = flipped_weight(weight, e);
    let below = flipped_weight(weight, f);
    if above < below {
        return 0;
    }
    above - below
}

// The exchange of row out for a row where it saves more than what was kept.
fn better(kept: Pick, row: usize, out: usize, saving: u32) -> Pick
    ensures { pick_of result ≡ better_of (pick_of kept) row out saving }
{
    if kept.saving < saving {
        return Pick {
            row: row,
            out: out,
            saving: saving,
        };
    }
    kept
}

// Row i, where it is one of the slice's rows, which are lent as words, is looked at: its dearest row would go out.
fn look(
    own: &[u64],
    weights: &[u64],
    first: usize,
    left: &[u8],
    right: &[u8],
    weight: &[u8],
    unmarked: &[u64],
    kept: Pick,
    i: usize,
) -> Pick
    requires { (i ≤ size) × Small (pick_of kept) }
    ensures look { (U : ℕ → Bool) → U i ≡ in_words unmarked.now i → pick_of result ≡ look_at weight.now (dearest_in (integers_after weights.now first) own.now left.now right.now U) U (pick_of kept) i }
    ensures small { Small (pick_of result) }
{
    if !slice_words::row_in(unmarked, i) {
        return kept;
    }
    let e = detour::dearest_at(own, weights, first, left, right, unmarked, i);
    let saving = gain(weight, e, i);
    better(kept, i, e, saving)
}

// The exchange of a row of the slice, none of them past row m, that saves most. The weight column is one that can be loaded.
fn pick_best(
    own: &[u64],
    left: &[u8],
    right: &[u8],
    weight: &[u8],
    m: usize,
    unmarked: Slice,
) -> Pick
    requires { (loaded_row 4 weight.now ≡ in_row 4 weight.now) × (m ≤ size) }
    ensures pick { pick_of result ≡ best_to weight.now own.now left.now right.now (component unmarked) m }
    ensures small { Small (pick_of result) }
{
    let mut weights = [0u64; table_loads::ALL];
    table_loads::put_prices(weight, &mut weights);
    let first = table_loads::sign_columns(&weights);
    let mut kept = Pick {
        row: 0,
        out: 0,
        saving: 0,
    };
    for i in 0..m {
        kept = look(
            own,
            &weights,
            first,
            left,
            right,
            weight,
            &unmarked.words,
            kept,
            i + 1,
        );
    }
    kept
}

// What is answered of a claim that is a spanning tree, by its path matrix from vertex 1.
fn tell(
    own: &[u64],
    n: u32,
    m: usize,
    in_use: Slice,
    left: &[u8],
    right: &[u8],
    weight: &[u8],
    mark: &[u8],
) -> Found
    requires { (loaded_row 4 weight.now ≡ in_row 4 weight.now) × (m ≤ size) }
    ensures { let call : Bool → Call = λ whole. table_of n m whole (component in_use) left.now right.now weight.now mark.now in
        ((whole : Bool) → Walked (call whole) own.now → found_of result ≡ best (call whole)) }
{
    let used = rows_among(m, in_use);
    let marked = claim::claim_rows(mark, used);
    let unmarked = difference::without(used, marked);
    let pick = pick_best(own, left, right, weight, m, unmarked);
    let tree = mst1::tree_of(n, m, in_use, left, right, weight).unwrap_or(Slice::empty());
    let least = claim::weigh(weight, tree);
    if pick.row == 0 {
        return Found::Stays(Stay {
            weight: claim::weigh(weight, marked),
            least,
        });
    }
    Found::Saves(Save {
        out: pick.out as u32,
        into: pick.row as u32,
        saving: pick.saving,
        least,
    })
}

// The best exchange over a table of either kind.
pub fn best(
    n: u32,
    table: InUse,
    left: &[u8],
    right: &[u8],
    weight: &[u8],
    mark: &[u8],
) -> Result<Found, Refusal>
    ensures { let c = table_in n table left.now right.now weight.now mark.now in
        answer_of result ≡ best c }
{
    let words = path::ALL_WORDS;
    let mut own = [0u64; path::ALL_WORDS];
    path::path_own(n, table, left, right, weight, mark, 1, words, &mut own)?;
    Ok(tell(&own, n, table.m, table.rows, left, right, weight, mark))
}
