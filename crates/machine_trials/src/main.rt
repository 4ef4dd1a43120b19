// Runs the machine on cases whose results are known from outside, and prints what it gives; the file stdout has what it should print.
// Standard input has a line for each case: what is printed before its result.

#![tactic(auto)]

use search_great::Compared;
use search_match::Matched;
use slice::Slice;
use std::io;
use std::io::Read;
use table::{RefusedLoad, Table};

// A number after a blank.
fn number(rt: &impl Print, x: usize) -> io::Result<()> {
    print!(rt; " {x}")
}

// The next line of standard input, without its end.
fn label(rt: &(impl Input + Print)) -> io::Result<()> {
    let mut byte = [0u8; 1];
    for _ in 0..100 {
        rt.reader().read(&mut byte)?;
        if byte[0] == b'\n' {
            return Ok(());
        }
        rt.write_all(&byte)?;
    }
    Ok(())
}

// The number of the components that are 1; their positions, one after the other by STEP, are printed where they are asked for.
fn positions(rt: &impl Print, x: Slice, printed: bool) -> io::Result<usize> {
    let mut rest = x;
    for n in 0..slice::SIZE {
        let at = slice::step(&mut rest);
        if at == 0 {
            return Ok(n);
        }
        if printed {
            number(rt, at)?;
        }
    }
    Ok(slice::SIZE)
}

fn value(rt: &(impl Input + Print), x: usize) -> io::Result<()> {
    label(rt)?;
    print!(rt; " {x}\n")
}

fn show(rt: &(impl Input + Print), x: Slice) -> io::Result<()> {
    label(rt)?;
    positions(rt, x, true)?;
    print!(rt; "\n")
}

// A slice with many components: how many, the uppermost, and whether component 1024 is 1.
fn summary(rt: &(impl Input + Print), x: Slice) -> io::Result<()> {
    label(rt)?;
    let n = positions(rt, x, false)?;
    let word = if slice::get(x, 1024) {
        "with"
    } else {
        "without"
    };
    print!(rt; " {n} from {} {word} 1024\n", slice::fnd(x))
}

// The byte at index i of the columns that are loaded.
fn sample(i: usize) -> u8 {
    let k = i % 65536;
    ((7 * k + 3) % 256) as u8
}

fn fill(column: &mut [u8]) {
    for (i, byte) in column.iter_mut().enumerate() {
        *byte = sample(i);
    }
}

// Byte i of a column of which the first `taken` bytes are in the table.
fn byte_of(i: usize, taken: usize) -> u8 {
    if i < taken { sample(i) } else { 0 }
}

// How the rows of a column are stored.
#[derive(Clone, Copy)]
enum Rows {
    Bytes,
    Quads,
}

// The number that was handed in at row i + 1.
fn handed_in(i: usize, taken: usize, rows: Rows) -> u32 {
    match rows {
        Rows::Bytes => u32::from(byte_of(i, taken)),
        Rows::Quads => {
            let at = 4 * (i % 1024);
            u32::from_le_bytes([
                byte_of(at, taken),
                byte_of(at + 1, taken),
                byte_of(at + 2, taken),
                byte_of(at + 3, taken),
            ])
        }
    }
}

// How many rows are as they were handed in.
fn rows_right(t: &Table, taken: usize, rows: Rows) -> usize {
    (0..slice::SIZE)
        .filter(|i| table::row_of(*t, i + 1) == handed_in(*i, taken, rows))
        .count()
}

// Whether a load was taken, or why it was not.
fn taken_or_refused(rt: &impl Print, loaded: &Result<Table, RefusedLoad>) -> io::Result<()> {
    match loaded {
        Ok(_) => print!(rt; " taken"),
        Err(refused) => {
            let refusal = refused.refusal;
            print!(rt; " refused {} {}", refusal.number, refusal.place)
        }
    }
}

// The table that a load gives, also where it is refused.
fn table_in(loaded: &Result<Table, RefusedLoad>) -> &Table {
    match loaded {
        Ok(table) => table,
        Err(refused) => &refused.table,
    }
}

// A load of a column, of whose bytes the first `taken` are in the table afterwards: all, or none where the load is refused.
fn report(rt: &(impl Input + Print), column: &[u8], taken: usize, rows: Rows) -> io::Result<()> {
    let loaded = match rows {
        Rows::Bytes => table::load_bytes(column),
        Rows::Quads => table::load_quads(column),
    };
    label(rt)?;
    taken_or_refused(rt, &loaded)?;
    let t = table_in(&loaded);
    let right = rows_right(t, taken, rows);
    let first = table::row_of(*t, 1);
    let last = table::row_of(*t, 1024);
    print!(rt; ", rows read back {right}, row 1 {first}, row 1024 {last}\n")
}

fn load_case(rt: &(impl Input + Print), len: usize, taken: usize, rows: Rows) -> io::Result<()> {
    let mut column = [0u8; 4200];
    fill(&mut column);
    if len <= 4200 {
        report(rt, &column[..len], taken, rows)?;
    }
    Ok(())
}

// Columns that are taken, and columns that are refused, of which no byte is.
fn loads(rt: &(impl Input + Print)) -> io::Result<()> {
    print!(rt; "one byte a row\n")?;
    for len in [0, 1, 63, 64, 65, 1023, 1024] {
        load_case(rt, len, len, Rows::Bytes)?;
    }
    load_case(rt, 1025, 0, Rows::Bytes)?;
    print!(rt; "four bytes a row\n")?;
    for len in [0, 4, 4092, 4096] {
        load_case(rt, len, len, Rows::Quads)?;
    }
    for len in [4097, 4095, 2] {
        load_case(rt, len, 0, Rows::Quads)?;
    }
    Ok(())
}

fn corners(rt: &(impl Input + Print), t: Table) -> io::Result<()> {
    label(rt)?;
    number(rt, table::row_of(t, 0) as usize)?;
    value(rt, table::row_of(t, 1025) as usize)?;
    show(rt, table::col(t, 0))?;
    show(rt, table::col(t, 33))?;
    show(rt, table::col(t, 32))?;
    show(rt, table::col(t, 30))?;
    show(rt, table::col(t, 1))
}

// Rows 5, 3, 5, 4, 4294967295, 3 and unloaded rows after them.
fn small() -> Table {
    let column = [
        5u8, 0, 0, 0, 3, 0, 0, 0, 5, 0, 0, 0, 4, 0, 0, 0, 255, 255, 255, 255, 3, 0, 0, 0,
    ];
    *table_in(&table::load_quads(&column))
}

// A slice of these rows.
fn rows_at(rows: &[usize]) -> Slice {
    rows.iter()
        .fold(slice::clr(), |x, i| slice::put(x, *i, true))
}

// GREAT whole: the rows that it found greater, and those that it found equal.
fn compared(rt: &(impl Input + Print), c: Compared) -> io::Result<()> {
    label(rt)?;
    positions(rt, c.greater, true)?;
    print!(rt; ", equal")?;
    positions(rt, c.equal, true)?;
    print!(rt; "\n")
}

fn searches(rt: &(impl Input + Print), t: Table, x: Slice) -> io::Result<()> {
    show(rt, search::match_rows(t, 5, x))?;
    show(rt, search::match_rows(t, 4294967295, x))?;
    show(rt, search::match_rows(t, 2, x))?;
    show(rt, search::min(t, x))?;
    show(rt, search::max(t, x))?;
    compared(rt, search::great(t, 0, x))?;
    compared(rt, search::great(t, 3, x))?;
    compared(rt, search::great(t, 4, x))?;
    compared(rt, search::great(t, 5, x))?;
    compared(rt, search::great(t, 4294967295, x))
}

// MATCH whole: the number of columns that it read, and the rows that it found.
fn counted(rt: &(impl Input + Print), m: Matched) -> io::Result<()> {
    label(rt)?;
    print!(rt; " {}, rows", m.read)?;
    positions(rt, m.rows, true)?;
    print!(rt; "\n")
}

fn counts(rt: &(impl Input + Print), t: Table, x: Slice) -> io::Result<()> {
    counted(rt, search::match_count(t, 5, slice::clr()))?;
    counted(rt, search::match_count(t, 5, x))?;
    counted(rt, search::match_count(t, 3, rows_at(&[4])))?;
    counted(rt, search::match_count(t, 65541, x))?;
    counted(rt, search::match_count(t, 2147483653, x))?;
    counted(rt, search::match_count(t, 0, rows_at(&[1000])))?;
    counted(rt, search::match_count(t, 8, rows_at(&[1000])))
}

// All rows are selected, unloaded ones too.
fn all_selected(rt: &(impl Input + Print), t: Table, x: Slice) -> io::Result<()> {
    summary(rt, search::match_rows(t, 0, x))?;
    summary(rt, search::min(t, x))?;
    show(rt, search::max(t, x))?;
    let c = search::great(t, 0, x);
    show(rt, c.greater)?;
    summary(rt, c.equal)
}

fn operations(rt: &(impl Input + Print), x: Slice, y: Slice) -> io::Result<()> {
    show(rt, slice::and(x, y))?;
    show(rt, slice::or(x, y))?;
    show(rt, slice::xor(x, y))?;
    summary(rt, slice::not(x))?;
    summary(rt, slice::set())?;
    show(rt, slice::clr())?;
    value(rt, usize::from(slice::some(x)))?;
    value(rt, usize::from(slice::zero(x)))?;
    value(rt, usize::from(slice::some(slice::clr())))?;
    value(rt, usize::from(slice::zero(slice::clr())))
}

fn places(rt: &(impl Input + Print), x: Slice) -> io::Result<()> {
    value(rt, usize::from(slice::get(slice::set(), 0)))?;
    value(rt, usize::from(slice::get(slice::set(), 1025)))?;
    show(rt, slice::put(slice::put(x, 0, true), 1025, true))?;
    show(rt, slice::put(x, 2, false))?;
    value(rt, slice::fnd(slice::clr()))?;
    value(rt, slice::fnd(rows_at(&[1024])))
}

// STEP: the position that it gives, and the components that are left in the slice.
fn stepped(rt: &(impl Input + Print), x: Slice) -> io::Result<()> {
    label(rt)?;
    let mut rest = x;
    print!(rt; " {}, left", slice::step(&mut rest))?;
    positions(rt, rest, true)?;
    print!(rt; "\n")
}

fn steps(rt: &(impl Input + Print), x: Slice) -> io::Result<()> {
    stepped(rt, x)?;
    stepped(rt, rows_at(&[1024]))?;
    stepped(rt, slice::clr())
}

fn main(rt: HostRuntime) -> io::Result<()> {
    let rt = &rt;
    loads(rt)?;
    let t = small();
    let x = rows_at(&[1, 2, 3, 4, 5, 6]);
    corners(rt, t)?;
    print!(rt; "rows 1 to 6 selected\n")?;
    searches(rt, t, x)?;
    print!(rt; "rows 2 and 4 selected\n")?;
    searches(rt, t, rows_at(&[2, 4]))?;
    print!(rt; "no row selected\n")?;
    searches(rt, t, slice::clr())?;
    print!(rt; "every row selected\n")?;
    all_selected(rt, t, slice::set())?;
    print!(rt; "columns read by MATCH\n")?;
    counts(rt, t, x)?;
    print!(rt; "slices\n")?;
    operations(rt, x, rows_at(&[3, 1024]))?;
    places(rt, x)?;
    steps(rt, x)
}
