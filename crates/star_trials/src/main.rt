// Reads trials on standard input and prints what MatrixPath, CST and MST1 answer; the file stdout has what they should. Beside a weight that passes stands yes where no other tree weighs the same, else no.
// A line is a trial: its name, a colon, and numbers: the procedure (1 CST, 2 MST1, 3 MatrixPath on a matrix of 112 words, 4 CST with the rows of an exchange that gives another tree of the same weight), n, s (for
// MatrixPath), and then each column, as its length and its entries: left, right, prices, marks. A price is the number of its 32 bits: 4294967295 is -1.

#![tactic(auto)]

ghost use Rattle.std.specs.Prelude.{◌≤◌, ◌+◌, length, IfSome};

use cst::{Checked, Exchange, Pass, Verdict};
use in_use::InUse;
use refusal::Refusal;
use slice::Slice;
use std::io;

// The procedure that a trial asks for.
#[derive(Clone, Copy)]
enum Procedure {
    Cst,
    Mst1,
    MatrixPath,
    Other,
}

impl Procedure {
    // By its number in a trial; any other number is CST.
    fn numbered(number: u32) -> Procedure {
        match number {
            2 => Procedure::Mst1,
            3 => Procedure::MatrixPath,
            4 => Procedure::Other,
            _ => Procedure::Cst,
        }
    }
}

// A trial's text, and the place from which on it is read.
#[derive(Clone, Copy)]
struct Trials<'a> {
    text: &'a [u8],
    at: usize,
}

fn refused(rt: &impl Print, r: Refusal) -> io::Result<()> {
    println!(rt; "refused {}, place {}", r.number, r.place)
}

fn lighter(rt: &impl Print, x: Exchange) -> io::Result<()> {
    println!(rt;
        "lighter, out {}, in {}, saving {}",
        x.out, x.into, x.saving
    )
}

fn passed(rt: &impl Print, x: Pass) -> io::Result<()> {
    let only = if x.only { "yes" } else { "no" };
    println!(rt; "passed, {}, {only}", x.weight.cast_signed())
}

fn verdict(rt: &impl Print, v: Verdict) -> io::Result<()> {
    match v {
        Verdict::Passed(x) => passed(rt, x),
        Verdict::Lighter(x) => lighter(rt, x),
    }
}

// CST's answer, and where it is asked for the rows of the exchange beside it.
fn checked(rt: &impl Print, answer: Result<Checked, Refusal>, other: bool) -> io::Result<()> {
    let (out, into) = match answer {
        Ok(x) => {
            verdict(rt, x.verdict)?;
            (x.out, x.into)
        }
        Err(r) => {
            refused(rt, r)?;
            (0, 0)
        }
    };
    if other {
        println!(rt; "    another tree: out {out}, in {into}")?;
    }
    Ok(())
}

// The marked rows of a claim, each after a blank.
fn rows(rt: &impl Print, mark: &[u8]) -> io::Result<()> {
    for (i, &byte) in mark.iter().enumerate() {
        if byte == 1 {
            print!(rt; " {}", i + 1)?;
        }
    }
    Ok(())
}

// The weight of a tree that was built, and its rows where the table has at most 16.
fn built(rt: &impl Print, answer: Result<u64, Refusal>, mark: &[u8]) -> io::Result<()> {
    let weight = match answer {
        Ok(weight) => weight,
        Err(r) => return refused(rt, r),
    };
    print!(rt; "tree of weight {}", weight.cast_signed())?;
    if mark.len() <= 16 {
        print!(rt; ", rows")?;
        rows(rt, mark)?;
    }
    println!(rt; "")
}

// The positions of a slice, each after a blank.
fn positions(rt: &impl Print, x: Slice) -> io::Result<()> {
    let mut rest = x;
    for _ in 0..slice::SIZE {
        let at = slice::step(&mut rest);
        if at == 0 {
            return Ok(());
        }
        print!(rt; " {at}")?;
    }
    Ok(())
}

// The columns of a path matrix.
fn columns(rt: &impl Print, matrix: &[u64], n: usize) -> io::Result<()> {
    for j in 0..n {
        print!(rt; " {{")?;
        positions(rt, path_matrix::read_column(matrix, j + 1))?;
        print!(rt; " }}")?;
    }
    println!(rt; "")
}

// MatrixPath's answer, its columns, and how many words of R are 7, as they were beforehand.
fn filled(rt: &impl Print, answer: Result<(), Refusal>, matrix: &[u64], n: u32) -> io::Result<()> {
    match answer {
        Ok(()) => {
            print!(rt; "columns")?;
            columns(rt, matrix, (n % 256) as usize)?;
        }
        Err(r) => refused(rt, r)?,
    }
    let sevens = matrix.iter().filter(|&&word| word == 7).count();
    println!(rt; "    words as they were: {sevens}")
}

// The value of a digit, none for any other byte.
fn digit(b: u8) -> Option<u32>
    ensures { IfSome result (λ d. d ≤ 9) }
{
    if b.is_ascii_digit() {
        Some((b - b'0') as u32)
    } else {
        None
    }
}

// The place of the first digit from a place on, the end where there is none.
fn digit_from(text: &[u8], from: usize) -> usize {
    for at in from..text.len() {
        if digit(text[at]).is_some() {
            return at;
        }
    }
    from.max(text.len())
}

// The number whose first digit is at a place, and where it ends.
fn number_from(text: &[u8], from: usize) -> (u32, usize) {
    let mut value: u32 = 0;
    for at in from..text.len() {
        let Some(d) = digit(text[at]) else {
            return (value, at);
        };
        value = value.wrapping_mul(10).wrapping_add(d);
    }
    (value, from.max(text.len()))
}

// The place of the first colon from a place on, the end where there is none.
fn colon_from(text: &[u8], from: usize) -> usize {
    for at in from..text.len() {
        if text[at] == b':' {
            return at;
        }
    }
    from.max(text.len())
}

// The place of the first byte above a blank from a place on, the end where there is none.
fn word_from(text: &[u8], from: usize) -> usize {
    for at in from..text.len() {
        if b' ' < text[at] {
            return at;
        }
    }
    from.max(text.len())
}

impl<'a> Trials<'a> {
    // The next number.
    fn number(&mut self) -> u32 {
        let (value, at) = number_from(self.text, digit_from(self.text, self.at));
        self.at = at;
        value
    }

    // Reads a column of bytes into the room lent for it: the number of its entries.
    fn bytes(&mut self, room: &mut [u8]) -> usize
        ensures { result ≤ length room.new }
    {
        let count = room.len().min(self.number() as usize);
        for i in 0..count {
            room[i] = (self.number() % 256) as u8;
        }
        count
    }

    // Reads a column of prices: the number of bytes that they take.
    fn prices(&mut self, room: &mut [u8]) -> usize
        ensures { result ≤ length room.new }
    {
        let count = (room.len() / 4).min(self.number() as usize);
        for i in 0..count {
            room[4 * i..4 * i + 4].copy_from_slice(&self.number().to_le_bytes());
        }
        4 * count
    }

    // Prints the bytes up to a colon, and the colon.
    fn name(&mut self, rt: &impl Print) -> io::Result<()> {
        let from = self.at;
        let at = colon_from(self.text, from);
        self.at = at;
        if let Some(bytes) = self.text.get(from..at) {
            rt.write_all(bytes)?;
        }
        print!(rt; ": ")
    }

    // Whether a byte above a blank is left, where reading goes on.
    fn more(&mut self) -> bool {
        let at = word_from(self.text, self.at);
        self.at = at;
        at < self.text.len()
    }
}

// MatrixPath on a matrix of 112 words, all 7 beforehand.
fn walk(
    rt: &impl Print,
    n: u32,
    left: &[u8],
    right: &[u8],
    weight: &[u8],
    mark: &[u8],
    s: u32,
) -> io::Result<()> {
    let mut matrix = [7u64; 112];
    let table = InUse::plain(left.len());
    let answer = path::matrix_path(n, table, left, right, weight, mark, s, &mut matrix);
    filled(rt, answer, &matrix, n)
}

// CST, with the rows of an exchange that gives another tree of the same weight where they are asked for.
fn check(
    rt: &impl Print,
    n: u32,
    left: &[u8],
    right: &[u8],
    weight: &[u8],
    mark: &[u8],
    other: bool,
) -> io::Result<()> {
    let answer = cst::cst(n, InUse::plain(left.len()), left, right, weight, mark);
    checked(rt, answer, other)
}

fn build(
    rt: &impl Print,
    n: u32,
    left: &[u8],
    right: &[u8],
    weight: &[u8],
    mark: &mut [u8],
) -> io::Result<()> {
    let answer = mst1::mst1(n, InUse::plain(left.len()), left, right, weight, mark);
    built(rt, answer, mark)
}

// Reads the numbers and the columns of a trial and runs it.
fn trial(rt: &impl Print, trials: &mut Trials<'_>) -> io::Result<()> {
    let procedure = Procedure::numbered(trials.number());
    let n = trials.number();
    let source = trials.number();
    let mut left = [0u8; 1100];
    let mut right = [0u8; 1100];
    let mut weight = [0u8; 4400];
    let mut mark = [0u8; 1100];
    let i = trials.bytes(&mut left);
    let j = trials.bytes(&mut right);
    let k = trials.prices(&mut weight);
    let l = trials.bytes(&mut mark);
    let (left, right, weight, mark) = (&left[..i], &right[..j], &weight[..k], &mut mark[..l]);
    match procedure {
        Procedure::Mst1 => build(rt, n, left, right, weight, mark),
        Procedure::MatrixPath => walk(rt, n, left, right, weight, mark, source),
        Procedure::Cst => check(rt, n, left, right, weight, mark, false),
        Procedure::Other => check(rt, n, left, right, weight, mark, true),
    }
}

// All trials of a text, a thousand at most.
fn run(rt: &impl Print, text: &[u8]) -> io::Result<()> {
    let mut trials = Trials { text, at: 0 };
    for _ in 0..1000 {
        if !trials.more() {
            return Ok(());
        }
        trials.name(rt)?;
        trial(rt, &mut trials)?;
    }
    Ok(())
}

fn main(rt: HostRuntime) -> io::Result<()> {
    let mut buffer = [0u8; 65536];
    let got = streams::read_text(&mut rt.stdin(), &mut buffer);
    if let Some(error) = got.error {
        return Err(error);
    }
    let n = got.size;
    run(&rt, &buffer[..n])
}
