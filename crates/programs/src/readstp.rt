// Reads an STP text on standard input and prints what the import answers: n and m on one line, and then a line a row with its ends and its weight; or the refusal's number and place.
// The page is made whole before a byte is printed; specs/Readstp.antt says what it is.
ghost use Rattle.std.specs.Prelude.{[], ◌∷◌, ◌++◌, ◌⊎◌, ◌≡◌, ◌≢◌, ◌+◌, ◌*◌, ◌≤◌, IfSome, length, take};
ghost use Rattle.std.specs.Io.KnownBytes.{Appends};
ghost use Rattle.decimal.specs.Decimal.{natural};
ghost use Rattle.decimal.specs.Puts.{Puts};
ghost use Rattle.programs.specs.Readstp.{sizes_line, ends_line, table_text, read_page, read_status};

use decimal::{put_byte, put_natural, put_price};
use digs::Page;
use digs_lines::put_refused;
use std::io::{Eprint, Read, Write};
use stp::Sizes;
use streams::{first, print_page, tell};

// One byte more than the longest text that is taken, so that a longer one is noticed.
const TEXT_BYTES: usize = 65537;

const ROWS: usize = 1024;

const WEIGHT_BYTES: usize = 4096;

// A line of n and m, at most 22 bytes, and 1,024 lines of at most 20: two ends of three digits, a weight of eleven bytes, and three bytes between and after them.
const PRINTED: usize = 20502;

// A number and the byte after it.
fn number(out: &mut [u8], at: usize, x: u64, after: u8) -> usize
    ensures { Puts out.old at (natural x ++ (after ∷ [])) out.new result }
{
    let next = put_natural(out, at, x);
    put_byte(out, next, after)
}

// The line of n and m, at the start of the column.
fn put_sizes(out: &mut [u8], n: u32, m: u32) -> usize
    ensures puts { Puts out.old 0 (sizes_line n m) out.new result }
    ensures few { length (sizes_line n m) ≤ 22 }
{
    let next = number(out, 0, n as u64, b' ');
    number(out, next, m as u64, b'\n')
}

// The line of row i: its ends and its weight.
fn put_row(out: &mut [u8], at: usize, left: &[u8], right: &[u8], weight: &[u8], i: usize) -> usize
    ensures puts { Puts out.old at (ends_line left.now right.now weight.now i) out.new result }
    ensures few { length (ends_line left.now right.now weight.now i) ≤ 20 }
{
    let a = table_checks::row_byte(left, i) as u64;
    let b = table_checks::row_byte(right, i) as u64;
    let w = table_checks::row_weight(weight, i);
    let first = number(out, at, a, b' ');
    let second = number(out, first, b, b' ');
    let third = put_price(out, second, w);
    put_byte(out, third, b'\n')
}

// The sizes, and the rows of the columns from the top.
fn put_table(out: &mut [u8], s: Sizes, left: &[u8], right: &[u8], weight: &[u8]) -> usize
    ensures puts { Puts out.old 0 (table_text s.n s.m left.now right.now weight.now) out.new result }
    ensures few { length (table_text s.n s.m left.now right.now weight.now) ≤ 22 + 20 * s.m }
{
    let m = s.m as usize;
    let mut next = put_sizes(out, s.n, s.m);
    for i in 0..m {
        next = put_row(out, next, left, right, weight, i + 1);
    }
    next
}

// The table that an import wrote into columns of 1,024 rows.
fn put_imported(out: &mut [u8], s: Sizes, left: &[u8], right: &[u8], weight: &[u8]) -> usize
    requires { (s.m ≤ 1024) × (length left.now ≡ 1024) × (length right.now ≡ 1024) × (length weight.now ≡ 4096) }
    ensures puts { Puts out.old 0 (table_text s.n s.m (take s.m left.now) (take s.m right.now) (take (4 * s.m) weight.now)) out.new result }
    ensures few { length (table_text s.n s.m (take s.m left.now) (take s.m right.now) (take (4 * s.m) weight.now)) ≤ 20502 }
{
    let m = s.m as usize;
    let w = 4 * m;
    put_table(out, s, &left[..m], &right[..m], &weight[..w])
}

// What the import of the text into columns of 1,024 rows answers, put at the start of a column: the page, of which the status is 1 for a refusal.
fn import(text: &[u8], out: &mut [u8]) -> Page
    ensures puts { Puts out.old 0 (read_page text.now) out.new result.size }
    ensures few { length (read_page text.now) ≤ 20502 }
    ensures status { (result.status ≡ read_status text.now) × (result.status ≤ 1) }
{
    let mut left = [0u8; ROWS];
    let mut right = [0u8; ROWS];
    let mut weight = [0u8; WEIGHT_BYTES];
    match stp::import(text, &mut left, &mut right, &mut weight) {
        Ok(s) => Page {
            size: put_imported(out, s, &left, &right, &weight),
            status: 0,
        },
        Err(r) => Page {
            size: put_refused(out, r),
            status: 1,
        },
    }
}

// Writes the page of a text and gives the exit status: 2 where it is not written, else that of the page. The bytes that are handed on are those that are to be printed of the text.
fn write_page<W: Write, E: Eprint>(
    output: &mut W,
    errors: &E,
    text: &[u8],
    page: &[u8],
    status: u32,
) -> u32
    requires { (page.now ≡ read_page text.now) × (status ≡ read_status text.now) × (status ≤ 1) }
    ensures status { (result ≡ read_status text.now) ⊎ (result ≡ 2) }
    ensures few { result ≤ 2 }
    ensures written { result ≢ 2 → Appends (W.contents output.old) (W.contents output.new) (read_page text.now) }
{
    let what = "readstp: the answer is not printed whole";
    print_page(output, errors, page, what, status, 2)
}

// Prints what the import of the text answers, and gives the exit status.
fn print<W: Write, E: Eprint>(output: &mut W, errors: &E, text: &[u8]) -> u32
    ensures status { (result ≡ read_status text.now) ⊎ (result ≡ 2) }
    ensures few { result ≤ 2 }
    ensures written { result ≢ 2 → Appends (W.contents output.old) (W.contents output.new) (read_page text.now) }
{
    let mut bytes = [0u8; PRINTED];
    let page = import(text, &mut bytes);
    let status = page.status;
    let size = page.size;
    write_page(output, errors, text, first(&bytes, size), status)
}

// The program: its exit status is 0 for a table, 1 for a refusal, 2 where the text cannot be read or the answer not be written. Of a text that the reader says, it is the page of the first 65,537
// bytes that is written, and the status is that of this page.
pub fn run<R: Read, W: Write, E: Eprint>(input: &mut R, output: &mut W, errors: &E) -> u32
    ensures few { result ≤ 2 }
    ensures status { IfSome (R.remaining input.old) (λ text. (result ≡ read_status (take 65537 text)) ⊎ (result ≡ 2)) }
    ensures written { IfSome (R.remaining input.old) (λ text. result ≢ 2 →
        Appends (W.contents output.old) (W.contents output.new) (read_page (take 65537 text))) }
{
    let mut buffer = [0u8; TEXT_BYTES];
    let got = streams::read_text(input, &mut buffer);
    if let Some(error) = got.error {
        tell(errors, "readstp: standard input is not read", error);
        return 2;
    }
    let size = got.size;
    print(output, errors, &buffer[..size])
}
