// The dig list of MST1's tree, made in a lent column of bytes: of a table, plain or working, and of an STP text.
// What is printed is these bytes, or the line of the refusal; nothing is printed here.

#![tactic(auto)]

ghost use Rattle.std.specs.Prelude.{◌≡◌, ◌*◌, ◌≤◌, length, take};
ghost use Rattle.digs_lines.specs.Prints.{Prints};
ghost use Rattle.digs_spec.specs.DigList.{table_list, text_list, printed, exit_status};
ghost use Rattle.digs.specs.Lists.{Lists};
ghost use Rattle.in_use.specs.Tables.{table_in};
ghost use Rattle.star_spec.specs.Call.{call_of};

use in_use::InUse;
use refusal::{Cause, Refusal};
use stp::Sizes;

// The bytes that the longest list takes: 254 lines of 25 bytes, and 20 for the total.
pub const LIST_BYTES: usize = 6370;

// The rows of an import's columns.
const ROWS: usize = 1024;

const WEIGHT_BYTES: usize = 4096;

// The list over a table of either kind, its length or the refusal. No mark column is taken; the left column stands in its place.
pub fn table_list(
    n: u32,
    table: InUse,
    left: &[u8],
    right: &[u8],
    weight: &[u8],
    out: &mut [u8],
) -> Result<usize, Refusal>
    ensures { let c = table_in n table left.now right.now weight.now left.now in
        Lists (table_list c) out.old out.new result }
{
    table_checks::table_check(
        n,
        table.m,
        table.whole,
        table.rows,
        left,
        right,
        weight,
        left,
    )?;
    let Some(tree) = mst1::tree_of(n, table.m, table.rows, left, right, weight) else {
        return Err(Refusal::of(Cause::NoNetwork as u32));
    };
    Ok(digs_lines::put_list(out, table.m, left, right, weight, tree))
}

// The list of the table that an import wrote into columns of 1,024 rows.
fn imported_list(
    s: Sizes,
    left: &[u8],
    right: &[u8],
    weight: &[u8],
    out: &mut [u8],
) -> Result<usize, Refusal>
    requires { (s.m ≤ 1024) × (length left.now ≡ 1024) × (length right.now ≡ 1024) × (length weight.now ≡ 4096) }
    ensures { let c = call_of s.n (take s.m left.now) (take s.m right.now) (take (4 * s.m) weight.now) (take s.m left.now) in
        Lists (table_list c) out.old out.new result }
{
    let m = s.m as usize;
    let w = 4 * m;
    table_list(
        s.n,
        InUse::plain(m),
        &left[..m],
        &right[..m],
        &weight[..w],
        out,
    )
}

// The list of an STP text's table, or the refusal of the import or of MST1.
pub fn text_list(text: &[u8], out: &mut [u8]) -> Result<usize, Refusal>
    ensures { Lists (text_list text.now) out.old out.new result }
{
    let mut left = [0u8; ROWS];
    let mut right = [0u8; ROWS];
    let mut weight = [0u8; WEIGHT_BYTES];
    let sizes = stp::import(text, &mut left, &mut right, &mut weight)?;
    imported_list(sizes, &left, &right, &weight, out)
}

// A page to print: the number of its bytes, and the exit status of a program that prints it, 0 for a list and 1 for a refusal.
#[derive(Clone, Copy)]
pub struct Page {
    pub size: usize,
    pub status: u32,
}

// What is printed of an STP text: its list, or the line of the refusal; the number of bytes is returned.
pub fn print_text(text: &[u8], out: &mut [u8]) -> Page
    ensures printed { Prints out.old out.new result.size (printed (text_list text.now)) }
    ensures status { (result.status ≡ exit_status (text_list text.now)) × (result.status ≤ 1) }
{
    match text_list(text, out) {
        Ok(size) => Page { size, status: 0 },
        Err(refusal) => Page {
            size: digs_lines::put_refused(out, refusal),
            status: 1,
        },
    }
}
