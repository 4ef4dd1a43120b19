// The total of a claim's marked rows over a table of either kind: the sum of their prices in the 64 bits that stand for it, or the refusal.

#![tactic(auto)]

ghost use Rattle.std.specs.Prelude.{◌≡◌};
ghost use Rattle.in_use.specs.Tables.{table_in};
ghost use Rattle.total_spec.specs.Total.{claim_total};
ghost use Rattle.total.specs.Answers.{answer_of};

use in_use::InUse;
use refusal::Refusal;
use slice::rows::rows_among;

// The 64 bits of the total of the rows in use that the claim marks; no tree is asked for.
pub fn claim_total(
    n: u32,
    table: InUse,
    left: &[u8],
    right: &[u8],
    weight: &[u8],
    mark: &[u8],
) -> Result<u64, Refusal>
    ensures { let c = table_in n table left.now right.now weight.now mark.now in
        answer_of result ≡ claim_total c }
{
    table_checks::claim_check(
        n,
        table.m,
        table.whole,
        table.rows,
        left,
        right,
        weight,
        mark,
    )?;
    let rows = claim::claim_rows(mark, rows_among(table.m, table.rows));
    Ok(claim::weigh(weight, rows))
}
