// The lines of a dig list, made in a lent column of bytes: those of rows, of the total and of a refusal. Nothing is printed here.

#![tactic(auto)]

ghost use Rattle.std.specs.Prelude.{cond, [], ◌++◌, ◌≡◌, ◌≤◌, length};
ghost use Rattle.decimal.specs.Puts.{Puts};
ghost use Rattle.digs_lines.specs.Prints.{Prints};
ghost use Rattle.digs_spec.specs.DigList.{spaced, row_line, row_lines, total_line, refused_line};
ghost use Rattle.rowset.specs.Bytes.{in_row};
ghost use Rattle.rowset.specs.Integers.{from_bits, signed, total};
ghost use Rattle.slice.specs.Slices.{size, component};

use decimal::{put_byte, put_integer, put_natural, put_price, put_text};
use refusal::Refusal;
use slice::Slice;

// A number and the space after it.
fn put_spaced(out: &mut [u8], at: usize, x: u64) -> usize
    ensures { Puts out.old at (spaced x) out.new result }
{
    let next = put_natural(out, at, x);
    put_byte(out, next, b' ')
}

// The line of row i: position, left, right, weight.
fn put_row(out: &mut [u8], at: usize, left: &[u8], right: &[u8], weight: &[u8], i: usize) -> usize
    ensures { Puts out.old at (row_line left.now right.now weight.now i) out.new result }
{
    let l = table_checks::row_byte(left, i) as u64;
    let r = table_checks::row_byte(right, i) as u64;
    let w = table_checks::row_weight(weight, i);
    let first = put_spaced(out, at, i as u64);
    let second = put_spaced(out, first, l);
    let third = put_spaced(out, second, r);
    let last = put_price(out, third, w);
    put_byte(out, last, b'\n')
}

// The line of row i where a slice has it, and nothing where it has not.
fn put_chosen(
    out: &mut [u8],
    at: usize,
    left: &[u8],
    right: &[u8],
    weight: &[u8],
    rows: Slice,
    i: usize,
) -> usize
    requires { at ≤ length out.old }
    ensures { Puts out.old at (cond (component rows i) (row_line left.now right.now weight.now i) []) out.new result }
{
    if slice::get(rows, i) {
        return put_row(out, at, left, right, weight, i);
    }
    at
}

// The lines of those of the first m rows that a slice has, from the top.
fn put_rows(
    out: &mut [u8],
    m: usize,
    left: &[u8],
    right: &[u8],
    weight: &[u8],
    rows: Slice,
) -> usize
    ensures { Puts out.old 0 (row_lines (row_line left.now right.now weight.now) m (component rows)) out.new result }
{
    let mut next = 0;
    for i in 0..m {
        next = put_chosen(out, next, left, right, weight, rows, i + 1);
    }
    next
}

// The last line, of the total that 64 bits stand for.
fn put_total(out: &mut [u8], at: usize, bits: u64) -> usize
    ensures { Puts out.old at (total_line (from_bits 64 bits)) out.new result }
{
    let word = put_text(out, at, b"Total ");
    let number = put_integer(out, word, bits);
    put_byte(out, number, b'\n')
}

// The list of a slice of rows, of those among the first m: their lines, and the line of their total.
pub fn put_list(
    out: &mut [u8],
    m: usize,
    left: &[u8],
    right: &[u8],
    weight: &[u8],
    rows: Slice,
) -> usize
    ensures { Puts out.old 0 (row_lines (row_line left.now right.now weight.now) m (component rows) ++ total_line (total size (λ i. signed (in_row 4 weight.now i)) (component rows))) out.new result }
{
    let bits = claim::weigh(weight, rows);
    let next = put_rows(out, m, left, right, weight, rows);
    put_total(out, next, bits)
}

// The line of a refusal.
pub fn put_refused(out: &mut [u8], r: Refusal) -> usize
    ensures { Prints out.old out.new result (refused_line r) }
{
    let word = put_text(out, 0, b"Refused ");
    let number = put_spaced(out, word, r.number as u64);
    let place = put_natural(out, number, r.place as u64);
    put_byte(out, place, b'\n')
}
