// The line of each verdict on a table file, made in a lent column of bytes. Nothing is printed here.

#![tactic(auto)]

ghost use Rattle.std.specs.Prelude.{◌++◌};
ghost use Rattle.cst.specs.Verdicts.{answer_of, verdict_of};
ghost use Rattle.decimal.specs.Decimal.{natural};
ghost use Rattle.decimal.specs.Puts.{Puts};
ghost use Rattle.rowset.specs.Integers.{from_bits};
ghost use Rattle.star_spec.specs.Cst.{refused, passed, lighter};
ghost use Rattle.verdict_spec.specs.VerdictText.{only_word};
ghost use Rattle.verdict_lines.specs.Lines.{Told};

use cst::{Checked, Exchange, Pass, Verdict};
use decimal::{put_byte, put_integer, put_natural, put_text};
use refusal::Refusal;

// The bytes that the longest line takes: that of a cheaper plan, with three numbers of ten digits.
pub const LINE_BYTES: usize = 48;

// The byte LF.
const LINE_END: u8 = 10;

// A line to print: the number of its bytes, and the exit status of a program that prints it: 0 where the plan passes, 1 where a cheaper one exists, 2 for a refusal.
#[derive(Clone, Copy)]
pub struct Line {
    pub size: usize,
    pub status: u32,
}

// A word and the number after it.
fn put_named(out: &mut [u8], at: usize, word: &[u8], x: u64) -> usize
    ensures { Puts out.old at (word.now ++ natural x) out.new result }
{
    let next = put_text(out, at, word);
    put_natural(out, next, x)
}

// The word of the only cheapest plan, and nothing where there is another.
fn put_only(out: &mut [u8], at: usize, only: bool) -> usize
    ensures { Puts out.old at (only_word «only») out.new result }
{
    if only {
        return put_text(out, at, b" only");
    }
    put_text(out, at, b"")
}

// The line of a plan that passes.
fn put_passed(out: &mut [u8], x: Pass) -> Line
    ensures { Told (passed (from_bits 64 x.weight) x.only) out.old out.new result.size result.status }
{
    let word = put_text(out, 0, b"Passed ");
    let total = put_integer(out, word, x.weight);
    let only = put_only(out, total, x.only);
    Line {
        size: put_byte(out, only, LINE_END),
        status: 0,
    }
}

// The line of an exchange that makes a plan cheaper.
fn put_cheaper(out: &mut [u8], x: Exchange) -> Line
    ensures { Told (lighter x.out x.into x.saving) out.old out.new result.size result.status }
{
    let saving = put_named(out, 0, b"Cheaper ", x.saving as u64);
    let gone = put_named(out, saving, b" out ", x.out as u64);
    let come = put_named(out, gone, b" in ", x.into as u64);
    Line {
        size: put_byte(out, come, LINE_END),
        status: 1,
    }
}

// The line of a refusal.
pub fn put_refused(out: &mut [u8], number: u32, place: usize) -> Line
    ensures { Told (refused (record { number = number; place = place })) out.old out.new result.size result.status }
{
    let first = put_named(out, 0, b"Refused ", number as u64);
    let second = put_named(out, first, b" ", place as u64);
    Line {
        size: put_byte(out, second, LINE_END),
        status: 2,
    }
}

// The line of a plan that passes, or of the exchange that makes it cheaper.
fn put_passing(out: &mut [u8], v: Verdict) -> Line
    ensures { Told (verdict_of v) out.old out.new result.size result.status }
{
    match v {
        Verdict::Passed(x) => put_passed(out, x),
        Verdict::Lighter(x) => put_cheaper(out, x),
    }
}

// The line of CST's verdict, or of its refusal.
pub fn put_verdict(out: &mut [u8], x: Result<Checked, Refusal>) -> Line
    ensures { Told (answer_of x) out.old out.new result.size result.status }
{
    match x {
        Ok(checked) => put_passing(out, checked.verdict),
        Err(r) => put_refused(out, r.number, r.place as usize),
    }
}
