// The quote: one row gets a new price, and the answer is the least total before the change and after it. Nothing lent is written.

#![tactic(auto)]

ghost use Rattle.std.specs.Prelude.{ℕ, ◌<◌, ◌≤◌, ◌^◌, eqb, length, get_or, cond, ◌≡◌};
ghost use Rattle.refusal.specs.Outcomes.{refusal_of};
ghost use Rattle.rowset.specs.Bytes.{in_row};
ghost use Rattle.in_use.specs.Tables.{table_in};
ghost use Rattle.star_spec.specs.Refusals.{refusal};
ghost use Rattle.price_spec.specs.Quote.{row_asked, quote};
ghost use Rattle.quote.specs.Answers.{answer_of};

use in_use::InUse;
use refusal::{Cause, Refusal};
use slice::Slice;

// The bytes of 1,024 prices.
const PRICES: usize = 4096;

// The least totals before the change and after it, each as the 64 bits that stand for it in two's complement.
#[derive(Clone, Copy)]
pub struct Totals {
    pub before: u64,
    pub after: u64,
}

// Causes 1 to 4 and 15, and 7 where the row asked about is not in use.
pub fn row_check(
    n: u32,
    table: InUse,
    left: &[u8],
    right: &[u8],
    weight: &[u8],
    row: u32,
) -> Result<(), Refusal>
    ensures { let c = table_in n table left.now right.now weight.now left.now in
        refusal_of result ≡ refusal (row_asked c row) }
{
    table_checks::table_check(
        n,
        table.m,
        table.whole,
        table.rows,
        left,
        right,
        weight,
        left,
    )?;
    let rows = slice::rows::rows_among(table.m, table.rows);
    table_checks::refused_if(!slice::get(rows, row as usize), Cause::BadSource as u32)
}

// The prices of a column, 0 in the rows past its end, with row's price, one of its rows, replaced.
fn replaced(weight: &[u8], row: usize, price: u32) -> [u8; PRICES]
    requires { (length weight.now ≤ 4096) × (1 ≤ row) × (row ≤ 1024) }
    ensures by_index { (i : ℕ) → in_row 4 result i ≡ cond (eqb i row) price (in_row 4 weight.now i) }
    ensures sized { length result ≡ 4096 }
{
    let mut prices = [0u8; PRICES];
    prices[..weight.len()].copy_from_slice(weight);
    let at = 4 * (row - 1);
    prices[at..at + 4].copy_from_slice(&price.to_le_bytes());
    prices
}

// The quote over a table of either kind: both trees are built and weighed, the second with the row's price replaced.
pub fn quote(
    n: u32,
    table: InUse,
    left: &[u8],
    right: &[u8],
    weight: &[u8],
    row: u32,
    price: u32,
) -> Result<Totals, Refusal>
    ensures { let c = table_in n table left.now right.now weight.now left.now in
        answer_of result ≡ quote c row price }
{
    row_check(n, table, left, right, weight, row)?;
    let Some(old) = mst1::tree_of(n, table.m, table.rows, left, right, weight) else {
        return Err(Refusal::of(Cause::NoNetwork as u32));
    };
    let prices = replaced(weight, row as usize, price);
    let new = mst1::tree_of(n, table.m, table.rows, left, right, &prices).unwrap_or(Slice::empty());
    Ok(Totals {
        before: claim::weigh(weight, old),
        after: claim::weigh(&prices, new),
    })
}
