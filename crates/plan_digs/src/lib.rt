// The dig list of a plan that is lent: the list of its marked rows and its length, or CST's refusal. Nothing is printed here; the list is made in a lent column of bytes.

#![tactic(auto)]

ghost use Rattle.std.specs.Prelude.{◌≡◌};
ghost use Rattle.digs.specs.Lists.{Lists};
ghost use Rattle.in_use.specs.Tables.{table_in};
ghost use Rattle.plan_digs_spec.specs.PlanList.{plan_list};
ghost use Rattle.refusal.specs.Outcomes.{refusal_of};
ghost use Rattle.star_spec.specs.Refusals.{cst_causes, refusal};

use in_use::InUse;
use refusal::Refusal;
use slice::rows::rows_among;

// CST's refusals of a plan: MatrixPath from vertex 1 has them on a matrix of its own.
fn plan_check(
    n: u32,
    table: InUse,
    left: &[u8],
    right: &[u8],
    weight: &[u8],
    mark: &[u8],
) -> Result<(), Refusal>
    ensures { let c = table_in n table left.now right.now weight.now mark.now in
        refusal_of result ≡ refusal (cst_causes c) }
{
    let mut own = [0u64; path::ALL_WORDS];
    let words = path::ALL_WORDS;
    path::path_own(n, table, left, right, weight, mark, 1, words, &mut own)
}

// The list of a plan over a table of either kind. The plan need not be least.
pub fn plan_list(
    n: u32,
    table: InUse,
    left: &[u8],
    right: &[u8],
    weight: &[u8],
    mark: &[u8],
    out: &mut [u8],
) -> Result<usize, Refusal>
    ensures { let c = table_in n table left.now right.now weight.now mark.now in
        Lists (plan_list c) out.old out.new result }
{
    plan_check(n, table, left, right, weight, mark)?;
    let rows = claim::claim_rows(mark, rows_among(table.m, table.rows));
    Ok(digs_lines::put_list(out, table.m, left, right, weight, rows))
}
