// Connections at a vertex: a least spanning tree with exactly t rows at vertex r. The start prefers rows at r; then exchanges take rows at r out, the cheapest first, until t are left.

#![tactic(auto)]

ghost use Rattle.std.specs.Prelude.{◌≡◌};
ghost use Rattle.outlets_spec.specs.Outlets.{vertex_asked, outlets, outlet_marks};
ghost use Rattle.mst1.specs.Answers.{answer_of};
ghost use Rattle.refusal.specs.Outcomes.{refusal_of};
ghost use Rattle.in_use.specs.Tables.{table_in};
ghost use Rattle.star_spec.specs.Refusals.{refusal};

use in_use::InUse;
use outlets_exact::NotMade;
use refusal::{Cause, Refusal};

// Causes 1 to 4 and 15, and 7 where r is no vertex.
fn vertex_check(
    n: u32,
    table: InUse,
    left: &[u8],
    right: &[u8],
    weight: &[u8],
    mark: &[u8],
    r: u32,
) -> Result<(), Refusal>
    ensures { let c = table_in n table left.now right.now weight.now mark.now in
        refusal_of result ≡ refusal (vertex_asked c r) }
{
    table_checks::table_check(
        n,
        table.m,
        table.whole,
        table.rows,
        left,
        right,
        weight,
        mark,
    )?;
    table_checks::refused_if(r == 0 || n < r, Cause::BadSource as u32)
}

// The tree with exactly t rows at r over a table of either kind: the refusal, and the marks stay as they were; or the tree's weight, and the marks are 1 for each of its rows and 0 for every other.
pub fn outlets(
    n: u32,
    table: InUse,
    left: &[u8],
    right: &[u8],
    weight: &[u8],
    mark: &mut [u8],
    r: u32,
    t: u32,
) -> Result<u64, Refusal>
    ensures { let c = table_in n table left.now right.now weight.now mark.old in
        (answer_of result ≡ outlets c r t) × (mark.new ≡ outlet_marks c r t) }
{
    vertex_check(n, table, left, right, weight, mark, r)?;
    let chosen = match outlets_exact::make(n, table.m, table.rows, left, right, weight, r, t) {
        Ok(chosen) => chosen,
        Err(NotMade::NoTree) => return Err(Refusal::of(Cause::NoNetwork as u32)),
        Err(NotMade::NoExactTree) => return Err(Refusal::of(Cause::NoOutlets as u32)),
    };
    claim::write_claim(mark, chosen);
    Ok(claim::weigh(weight, chosen))
}
