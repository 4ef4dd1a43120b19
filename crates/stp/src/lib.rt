// The import of a SteinLib STP text into the three columns of a table. The text is read whole, into columns of the reader's own, before a lent column is written.

#![tactic(auto)]

ghost use Rattle.std.specs.Prelude.{[], ◌∷◌, ◌++◌, ◌≡◌, ◌*◌, ◌≤◌, length, take, drop, get_or};
ghost use Rattle.std.proofs.Math.Option.{none};
ghost use Rattle.stp_reader.specs.Readings.{Sized, read_of};
ghost use Rattle.stp_spec.specs.Reader.{whole};
ghost use Rattle.refusal.specs.Outcomes.{refusal_of};
ghost use Rattle.star_spec.specs.Refusals.{bad_vertices, too_many_rows, row_causes, refusal};
ghost use Rattle.stp_spec.specs.Import.{imported, max_text, read_text, table_of, bad_columns, import_causes, left_after, right_after, weight_after};
ghost use Rattle.stp.specs.Answers.{answer_of};
ghost use Rattle.stp.specs.Steps.Settled.{Settled};

use refusal::{Cause, Refusal};
use stp_reader::{ROWS, Table, WEIGHT_BYTES};

// The number of vertices and of rows that were read.
#[derive(Clone, Copy)]
pub struct Sizes {
    pub n: u32,
    pub m: u32,
}

// Causes 3, 4 and 15 of at most 1,024 rows that were read; l, r and w are the lengths of the lent columns.
fn rows_check(table: &Table, l: usize, r: usize, w: usize) -> Result<(), Refusal>
    requires { (none ≡ refusal (bad_vertices table.now.nodes ∷ too_many_rows table.now.rows ∷ [])) × Sized table.now.left table.now.right table.now.weight }
    ensures { refusal_of result ≡ refusal (bad_columns l r w ∷ row_causes (table_of (read_of table.now))) }
{
    if l != ROWS || r != ROWS || w != WEIGHT_BYTES {
        return Err(Refusal::of(Cause::BadLengths as u32));
    }
    let m = table.rows as usize;
    let end = 4 * m;
    table_checks::table_check(
        table.nodes,
        m,
        true,
        slice::rows::rows_to(m),
        &table.left[..m],
        &table.right[..m],
        &table.weight[..end],
        &table.left[..m],
    )
}

// Causes 13, 1, 2, 3, 4 and 15 of a table that was read; l, r and w are the lengths of the lent columns.
fn import_check(table: &Table, l: usize, r: usize, w: usize) -> Result<(), Refusal>
    requires { Sized table.now.left table.now.right table.now.weight }
    ensures { refusal_of result ≡ refusal (import_causes (whole (read_of table.now)) l r w) }
{
    if table.rows != table.edges {
        return Err(Refusal::of(Cause::BadEdgeCount as u32));
    }
    table_checks::size_check(table.nodes, table.rows as usize)?;
    rows_check(table, l, r, w)
}

// The rows of the lent columns become those that were read.
fn store_rows(table: &Table, left: &mut [u8], right: &mut [u8], weight: &mut [u8])
    requires rows { (table.now.rows ≤ 1024) × Sized table.now.left table.now.right table.now.weight }
    requires lent { (length left.old ≡ 1024) × (length right.old ≡ 1024) × (length weight.old ≡ 4096) }
    ensures ends { left.new ≡ take table.now.rows table.now.left ++ drop table.now.rows left.old }
    ensures others { right.new ≡ take table.now.rows table.now.right ++ drop table.now.rows right.old }
    ensures prices { weight.new ≡ take (4 * table.now.rows) table.now.weight ++ drop (4 * table.now.rows) weight.old }
{
    let m = table.rows as usize;
    left[..m].copy_from_slice(&table.left[..m]);
    right[..m].copy_from_slice(&table.right[..m]);
    weight[..4 * m].copy_from_slice(&table.weight[..4 * m]);
}

// What follows the reading of a table: the checks, and the lent columns where nothing is refused.
fn settle(
    table: &Table,
    left: &mut [u8],
    right: &mut [u8],
    weight: &mut [u8],
) -> Result<Sizes, Refusal>
    requires { Sized table.now.left table.now.right table.now.weight }
    ensures { Settled (whole (read_of table.now)) left.old right.old weight.old result left.new right.new weight.new }
{
    import_check(table, left.len(), right.len(), weight.len())?;
    store_rows(table, left, right, weight);
    Ok(Sizes {
        n: table.nodes,
        m: table.rows,
    })
}

// The import: n and m, with the first m rows of the three columns written; or the refusal, and the columns stay as they were.
pub fn import(
    text: &[u8],
    left: &mut [u8],
    right: &mut [u8],
    weight: &mut [u8],
) -> Result<Sizes, Refusal>
    ensures answer { answer_of result ≡ imported text.now (length left.old) (length right.old) (length weight.old) }
    ensures lefts { left.new ≡ left_after text.now left.old right.old weight.old }
    ensures rights { right.new ≡ right_after text.now left.old right.old weight.old }
    ensures weights { weight.new ≡ weight_after text.now left.old right.old weight.old }
{
    match stp_reader::read(text) {
        Ok(table) => settle(&table, left, right, weight),
        Err(broken) => Err(Refusal {
            number: Cause::BadText as u32,
            place: broken.at as u32,
        }),
    }
}
