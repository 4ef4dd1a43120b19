// CST, the tree checker: its verdict on the claim that a table's marked rows are a least spanning tree.

#![tactic(auto)]

ghost use Rattle.std.specs.Prelude.{Ok, Bool, true, ◌≡◌, ℕ, ◌*◌, ◌≤◌, length, ◌≤ℤ◌};
ghost use Rattle.rowset.specs.Bytes.{in_row};
ghost use Rattle.rowset.specs.Words.{column_words};
ghost use Rattle.in_use.specs.Tables.{table_in};
ghost use Rattle.slice.specs.Slices.{size, component};
ghost use Rattle.star_spec.specs.Cst.{cst, equal_rows};
ghost use Rattle.star_spec.specs.Call.{Call, table_of};
ghost use Rattle.star_spec.specs.Refusals.{max_vertices};
ghost use Rattle.table.specs.Loads.{loaded_row};
ghost use Rattle.cst.specs.Steps.Paths.{weight_in, exchange_of, first_lighter, first_equal, Walked};
ghost use Rattle.cst.specs.Verdicts.{answer_of, equal_rows_of};

use claim::flipped_weight;
use cst_compare::{compared_rows, remember};
use in_use::InUse;
use refusal::Refusal;
use slice::rows::rows_among;
use slice::{Slice, difference};
use slice_step::step_words;

// Two numbers of vertices that many tables do not exceed, and the words of a path matrix for as many.
const FEW: u32 = 16;

const FEW_WORDS: usize = 256;

const SOME: u32 = 64;

const SOME_WORDS: usize = 1024;

// The exchange that makes a claim lighter: the marked row that goes out, the unmarked row that comes in, and how much less the claim then weighs.
#[derive(Clone, Copy)]
pub struct Exchange {
    pub out: u32,
    pub into: u32,
    pub saving: u32,
}

// A claim that passes: the 64 bits of its weight, and whether it is the only spanning tree of that weight.
#[derive(Clone, Copy)]
pub struct Pass {
    pub weight: u64,
    pub only: bool,
}

// The verdict: passed, with the weight and yes or no; or lighter, with the exchange.
#[derive(Clone, Copy)]
pub enum Verdict {
    Passed(Pass),
    Lighter(Exchange),
}

// The verdict with an exchange that gives another tree of the same weight, where the claim passes and there is one: the row that goes out and the row that comes in, else 0 and 0.
#[derive(Clone, Copy)]
pub struct Checked {
    pub verdict: Verdict,
    pub out: u32,
    pub into: u32,
}

// An exchange of two rows of equal weight: the row that goes out and the row that comes in, 0 and 0 where there is none.
#[derive(Clone, Copy)]
struct Equal {
    out: u32,
    into: u32,
}

// What is found among the unmarked rows: the first exchange that makes the claim lighter, and where there is none, the first of two rows of equal weight.
#[derive(Clone, Copy)]
struct Found {
    lighter: Exchange,
    equal: Equal,
}

// The exchange of row out for row into, which is not heavier. The difference of their weights is that of their flipped weights.
fn exchange_of(weight: &[u8], out: usize, into: usize) -> Exchange
    requires { (out ≤ size) × (into ≤ size) × (weight_in weight.now into ≤ℤ weight_in weight.now out) }
    ensures { result ≡ exchange_of weight.now out into }
{
    Exchange {
        out: out as u32,
        into: into as u32,
        saving: flipped_weight(weight, out) - flipped_weight(weight, into),
    }
}

// The rows are visited by STEP: the first that has a heavier row on the path between its ends comes in, and the uppermost such row goes out. All is 0 where none has; then the first
// with a row of equal weight on that path, and the uppermost such row, are the exchange of equal rows. The weight column is one that can be loaded.
fn first_found(matrix: &[u64], left: &[u8], right: &[u8], weight: &[u8], rows: Slice) -> Found
    requires { loaded_row 4 weight.now ≡ in_row 4 weight.now }
    ensures lighter { result.lighter ≡ first_lighter matrix.now left.now right.now weight.now (component rows) }
    ensures equal { result.lighter.into ≡ 0 → result.equal ≡ first_equal matrix.now left.now right.now weight.now (component rows) }
{
    let mut weights = [0u64; table_loads::ALL];
    table_loads::put_prices(weight, &mut weights);
    let first = table_loads::sign_columns(&weights);
    let mut rest = rows.words;
    let mut into = 0;
    let mut at = step_words(&mut rest);
    while at != 0 {
        let y = compared_rows(matrix, &weights, first, left, right, weight, at);
        let heavier = y.greater;
        if slice::some(heavier) {
            return Found {
                lighter: exchange_of(weight, slice::fnd(heavier), at),
                equal: Equal { out: 0, into: 0 },
            };
        }
        let same = y.equal;
        into = remember(into, same, at);
        at = step_words(&mut rest);
    }
    let beside = compared_rows(matrix, &weights, first, left, right, weight, into);
    let equal = beside.equal;
    Found {
        lighter: Exchange {
            out: 0,
            into: 0,
            saving: 0,
        },
        equal: Equal {
            out: slice::fnd(equal) as u32,
            into: into as u32,
        },
    }
}

// The verdict on a claim that is a spanning tree, by its path matrix from vertex 1. The weight column is one that can be loaded.
fn judge(
    matrix: &[u64],
    m: usize,
    rows: Slice,
    left: &[u8],
    right: &[u8],
    weight: &[u8],
    mark: &[u8],
) -> Checked
    requires { loaded_row 4 weight.now ≡ in_row 4 weight.now }
    ensures { let call : ℕ → Bool → Call = λ n whole. table_of n m whole (component rows) left.now right.now weight.now mark.now in
        ((n : ℕ) (whole : Bool) → Walked (call n whole) matrix.now → (answer_of (Ok result) ≡ cst (call n whole)) × (equal_rows_of (Ok result) ≡ equal_rows (call n whole))) }
{
    let used = rows_among(m, rows);
    let marked = claim::claim_rows(mark, used);
    let unmarked = difference::without(used, marked);
    let found = first_found(matrix, left, right, weight, unmarked);
    let lighter = found.lighter;
    if lighter.into != 0 {
        return Checked {
            verdict: Verdict::Lighter(lighter),
            out: 0,
            into: 0,
        };
    }
    let equal = found.equal;
    let pass = Pass {
        weight: claim::weigh(weight, marked),
        only: equal.into == 0,
    };
    Checked {
        verdict: Verdict::Passed(pass),
        out: equal.out,
        into: equal.into,
    }
}

// CST with its path matrix lent, which has a column for each vertex: MatrixPath from vertex 1 fills it, and where MatrixPath refuses, its refusal is handed on unread.
fn check_in(
    n: u32,
    table: InUse,
    left: &[u8],
    right: &[u8],
    weight: &[u8],
    mark: &[u8],
    own: &mut [u64],
) -> Result<Checked, Refusal>
    requires { n ≤ max_vertices → column_words * n ≤ length own.old }
    ensures verdict { let c = table_in n table left.now right.now weight.now mark.now in
        answer_of result ≡ cst c }
    ensures rows { let c = table_in n table left.now right.now weight.now mark.now in
        equal_rows_of result ≡ equal_rows c }
{
    let words = path::ALL_WORDS;
    path::path_own(n, table, left, right, weight, mark, 1, words, own)?;
    Ok(judge(own, table.m, table.rows, left, right, weight, mark))
}

// CST over a table of either kind: the verdict on the claim, and beside a pass that is not the only one the rows of an exchange that gives another tree of the same weight.
// The path matrix is CST's own, a smaller one where there are fewer vertices.
pub fn cst(
    n: u32,
    table: InUse,
    left: &[u8],
    right: &[u8],
    weight: &[u8],
    mark: &[u8],
) -> Result<Checked, Refusal>
    ensures verdict { let c = table_in n table left.now right.now weight.now mark.now in
        answer_of result ≡ cst c }
    ensures rows { let c = table_in n table left.now right.now weight.now mark.now in
        equal_rows_of result ≡ equal_rows c }
{
    if n <= FEW {
        let mut small = [0u64; FEW_WORDS];
        return check_in(n, table, left, right, weight, mark, &mut small);
    }
    if n <= SOME {
        let mut middle = [0u64; SOME_WORDS];
        return check_in(n, table, left, right, weight, mark, &mut middle);
    }
    let mut own = [0u64; path::ALL_WORDS];
    check_in(n, table, left, right, weight, mark, &mut own)
}
