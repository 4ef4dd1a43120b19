// The verdict on a table file in one line, made in a lent column of bytes: the file is read into columns, and CST is called over what was read. Nothing is printed here.

#![tactic(auto)]

ghost use Rattle.std.specs.Prelude.{◌≤◌, length, ◌≡◌};
ghost use Rattle.decimal.specs.Puts.{Puts};
ghost use Rattle.star_spec.specs.Call.{work_of};
ghost use Rattle.star_spec.specs.Cst.{cst};
ghost use Rattle.verdict_lines.specs.Lines.{Told};
ghost use Rattle.verdict_spec.specs.VerdictText.{verdict_text, verdict_status};

use in_use::InUse;
use verdict_lines::{Line, put_refused, put_verdict};

// The columns into which a file is read: rows, the bytes of their prices, the words of the rows in use, names.
const ROWS: usize = 1024;

const WEIGHT_BYTES: usize = 4096;

const WORDS: usize = 16;

const NAMES: usize = 255;

// The line of CST's verdict on the marks of a working table.
fn table_verdict(
    n: u32,
    words: &[u64],
    left: &[u8],
    right: &[u8],
    weight: &[u8],
    mark: &[u8],
    out: &mut [u8],
) -> Line
    ensures { let c = work_of n words.now left.now right.now weight.now mark.now in
        Told (cst c) out.old out.new result.size result.status }
{
    let table = InUse::working(words);
    put_verdict(out, cst::cst(n, table, left, right, weight, mark))
}

// The line of a table file: it stands at the start of the column, as far as it fits; LINE_BYTES hold it whole.
pub fn print_text(text: &[u8], out: &mut [u8]) -> Line
    ensures puts { Puts out.old 0 (verdict_text text.now) out.new result.size }
    ensures few { length (verdict_text text.now) ≤ 48 }
    ensures status { (result.status ≡ verdict_status text.now) × (result.status ≤ 2) }
{
    let mut left = [0u8; ROWS];
    let mut right = [0u8; ROWS];
    let mut weight = [0u8; WEIGHT_BYTES];
    let mut mark = [0u8; ROWS];
    let mut words = [0u64; WORDS];
    let mut starts = [0u32; NAMES];
    let mut ends = [0u32; NAMES];
    let mut rows = [0u32; ROWS];
    let read = file::read_table(
        text,
        &mut left,
        &mut right,
        &mut weight,
        &mut mark,
        &mut words,
        &mut starts,
        &mut ends,
        &mut rows,
    );
    match read {
        Ok(s) => table_verdict(s.n, &words, &left, &right, &weight, &mark, out),
        Err(e) => put_refused(out, e.number, e.place),
    }
}
