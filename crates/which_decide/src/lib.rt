// Which of two plans stands over a table of either kind: the refusals of both, and their weights.

#![tactic(auto)]

ghost use Rattle.std.specs.Prelude.{◌≡◌, ℕ, Bool, List, int_lt};
ghost use Rattle.std.proofs.Math.Option.{none};
ghost use Rattle.which_spec.specs.Which.{lighter_plan, which};
ghost use Rattle.in_use.specs.Tables.{table_in};
ghost use Rattle.refusal.specs.Outcomes.{refusal_of};
ghost use Rattle.rowset.specs.Integers.{from_bits};
ghost use Rattle.slice.specs.Slices.{component};
ghost use Rattle.star_spec.specs.Call.{Call, table_of, claim_weight};
ghost use Rattle.star_spec.specs.Refusals.{cst_causes, refusal};
ghost use Rattle.which_decide.specs.Answers.{standing, answer_of};

use in_use::InUse;
use refusal::Refusal;
use slice::Slice;
use slice::rows::rows_among;

// 2 ^ 63: the first of 64 bits.
const OFFSET: u64 = 9223372036854775808;

// Which plan stands, with the 64 bits of its weight.
#[derive(Clone, Copy)]
pub enum Decision {
    First(u64),
    Second(u64),
}

// CST's refusals of a plan, without its search for an exchange: MatrixPath from vertex 1 has them on a matrix of its own.
fn plan_check(
    n: u32,
    table: InUse,
    left: &[u8],
    right: &[u8],
    weight: &[u8],
    mark: &[u8],
) -> Result<(), Refusal>
    ensures { let c = table_in n table left.now right.now weight.now mark.now in
        refusal_of result ≡ refusal (cst_causes c) }
{
    let mut own = [0u64; path::ALL_WORDS];
    let words = path::ALL_WORDS;
    path::path_own(n, table, left, right, weight, mark, 1, words, &mut own)
}

// The 64 bits of the weight of a plan that is not refused.
fn plan_weight(m: usize, rows: Slice, weight: &[u8], mark: &[u8]) -> u64
    ensures { let call : ℕ → Bool → List ℕ → List ℕ → Call = λ n whole left right. table_of n m whole (component rows) left right weight.now mark.now in
        ((n : ℕ) (whole : Bool) (left right : List ℕ) → refusal (cst_causes (call n whole left right)) ≡ none → from_bits 64 result ≡ claim_weight (call n whole left right)) }
{
    claim::weigh(weight, claim::claim_rows(mark, rows_among(m, rows)))
}

// Whether the integer of the bits x is below that of the bits y: their order is that of the bits with the first one turned over.
fn below(x: u64, y: u64) -> bool
    ensures { result ≡ int_lt (from_bits 64 x) (from_bits 64 y) }
{
    x.wrapping_add(OFFSET) < y.wrapping_add(OFFSET)
}

// Of two plans with these weights the second where it weighs less, else the first.
fn lighter(first: u64, second: u64) -> Decision
    ensures { standing result ≡ lighter_plan (from_bits 64 first) (from_bits 64 second) }
{
    if below(second, first) {
        return Decision::Second(second);
    }
    Decision::First(first)
}

// Which plan stands over a table of either kind: the first plan's refusal goes before the second's.
pub fn decide(
    n: u32,
    table: InUse,
    left: &[u8],
    right: &[u8],
    weight: &[u8],
    first: &[u8],
    second: &[u8],
) -> Result<Decision, Refusal>
    ensures { let c = table_in n table left.now right.now weight.now first.now in
        answer_of result ≡ which c second.now }
{
    plan_check(n, table, left, right, weight, first)?;
    plan_check(n, table, left, right, weight, second)?;
    Ok(lighter(
        plan_weight(table.m, table.rows, weight, first),
        plan_weight(table.m, table.rows, weight, second),
    ))
}
