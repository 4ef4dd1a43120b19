// Groups of vertices, and the first two passes of mending over them: marks that close a ring are dropped, and rows that join two groups are added.
// A group is told by a byte a vertex, its label. Each drop and addition is noted as a record.

#![tactic(auto)]

ghost use Rattle.std.specs.Prelude.{◌*◌, ◌^◌, ◌≤◌, ◌<◌, min, length, ◌≡◌};
ghost use Rattle.slice.specs.Slices.{size, component};
ghost use Rattle.mend_groups.specs.Steps.Machine.{state_of, all_renamed, labels_from, apart, joined_labels, drop_at, add_at, visits, two_passes};

use mend_record::{Kind, Record};
use slice::{SIZE, Slice};
use table_checks::row_byte;

// The vertices that can be.
const VERTICES: usize = 255;

// The records that three passes over 1,024 rows can make.
pub const RECORDS: usize = 3072;

// The drawing while it is mended: the rows marked by now, and the number of records.
#[derive(Clone, Copy)]
pub struct Drawn {
    pub marks: Slice,
    pub count: usize,
}

// Label x becomes y at every vertex that has it.
pub fn rename_all(labels: &mut [u8], x: u8, y: u8)
    ensures { labels.new ≡ all_renamed labels.old x y }
{
    for label in labels.iter_mut() {
        *label = if *label == x { y } else { *label };
    }
}

// Each vertex is a group of its own. More than 255 labels stay as they were.
pub fn own_labels(labels: &mut [u8])
    ensures stored { length labels.old ≤ 255 → labels.new ≡ labels_from 0 (length labels.old) }
    ensures kept { 255 < length labels.old → labels.new ≡ labels.old }
{
    if VERTICES < labels.len() {
        return;
    }
    for (i, label) in labels.iter_mut().enumerate() {
        *label = (i + 1) as u8;
    }
}

// Whether vertices a and b are of two groups, which then become one.
fn join(labels: &mut [u8], a: u8, b: u8) -> bool
    ensures apart { result ≡ apart labels.old a b }
    ensures joined { labels.new ≡ joined_labels labels.old a b }
{
    let x = row_byte(labels, b as usize);
    let y = row_byte(labels, a as usize);
    if x == y {
        return false;
    }
    rename_all(labels, x, y);
    true
}

// The first pass at row i: a marked row whose ends earlier kept marks join is dropped.
fn drop_at(
    left: &[u8],
    right: &[u8],
    i: usize,
    s: Drawn,
    list: &mut [Record],
    labels: &mut [u8],
) -> Drawn
    requires { (i < 2 ^ 32) × (s.count < length list.old) }
    ensures { state_of result list.new labels.new ≡ drop_at left.now right.now i (state_of s list.old labels.old) }
{
    if !slice::get(s.marks, i) {
        return s;
    }
    if join(labels, row_byte(left, i), row_byte(right, i)) {
        return s;
    }
    list[s.count] = Record {
        kind: Kind::Drop as u32,
        out: i as u32,
        into: 0,
    };
    Drawn {
        marks: slice::put(s.marks, i, false),
        count: s.count + 1,
    }
}

// The first pass over rows 1 to m.
fn drop_rings(
    m: usize,
    left: &[u8],
    right: &[u8],
    marked: Slice,
    list: &mut [Record],
    labels: &mut [u8],
) -> Drawn
    requires { (m ≤ size) × (m ≤ length list.old) }
    ensures passed { state_of result list.new labels.new ≡ visits (drop_at left.now right.now) m (record { marks = component marked; count = 0; list = list.old; own = labels.old }) }
    ensures few { result.count ≤ m }
{
    let mut s = Drawn {
        marks: marked,
        count: 0,
    };
    for i in 0..m {
        s = drop_at(left, right, i + 1, s, list, labels);
    }
    s
}

// The second pass at row i: a row in use that joins two groups is added.
fn add_at(
    used: Slice,
    left: &[u8],
    right: &[u8],
    i: usize,
    s: Drawn,
    list: &mut [Record],
    labels: &mut [u8],
) -> Drawn
    requires { (i < 2 ^ 32) × (s.count < length list.old) }
    ensures { state_of result list.new labels.new ≡ add_at (component used) left.now right.now i (state_of s list.old labels.old) }
{
    if !slice::get(used, i) {
        return s;
    }
    if !join(labels, row_byte(left, i), row_byte(right, i)) {
        return s;
    }
    list[s.count] = Record {
        kind: Kind::Addition as u32,
        out: 0,
        into: i as u32,
    };
    Drawn {
        marks: slice::put(s.marks, i, true),
        count: s.count + 1,
    }
}

// The second pass over rows 1 to m.
fn close_gaps(
    m: usize,
    used: Slice,
    left: &[u8],
    right: &[u8],
    start: Drawn,
    list: &mut [Record],
    labels: &mut [u8],
) -> Drawn
    requires { (m ≤ size) × (start.count ≤ m) × (2 * m ≤ length list.old) }
    ensures passed { state_of result list.new labels.new ≡ visits (add_at (component used) left.now right.now) m (state_of start list.old labels.old) }
    ensures few { result.count ≤ 2 * m }
{
    let mut s = start;
    for i in 0..m {
        s = add_at(used, left, right, i + 1, s, list, labels);
    }
    s
}

// The first two passes.
fn join_groups(
    m: usize,
    used: Slice,
    left: &[u8],
    right: &[u8],
    marked: Slice,
    list: &mut [Record],
) -> Drawn
    requires { (m ≤ size) × (2 * m ≤ length list.old) }
    ensures marks { component result.marks ≡ (two_passes m (component used) (component marked) left.now right.now list.old).marks }
    ensures count { result.count ≡ (two_passes m (component used) (component marked) left.now right.now list.old).count }
    ensures list { list.new ≡ (two_passes m (component used) (component marked) left.now right.now list.old).list }
    ensures few { result.count ≤ 2 * m }
{
    let mut labels = [0u8; VERTICES];
    own_labels(&mut labels);
    let ringless = drop_rings(m, left, right, marked, list, &mut labels);
    close_gaps(m, used, left, right, ringless, list, &mut labels)
}

// The first two passes over rows 1 to m, of at most 1,024, their records noted in a list that has room for those of three passes.
pub fn two_passes(
    m: usize,
    used: Slice,
    left: &[u8],
    right: &[u8],
    marked: Slice,
    list: &mut [Record; RECORDS],
) -> Drawn
    ensures marks { component result.marks ≡ (two_passes (min m size) (component used) (component marked) left.now right.now list.old).marks }
    ensures count { result.count ≡ (two_passes (min m size) (component used) (component marked) left.now right.now list.old).count }
    ensures list { list.new ≡ (two_passes (min m size) (component used) (component marked) left.now right.now list.old).list }
    ensures few { result.count ≤ 2 * min m size }
{
    join_groups(m.min(SIZE), used, left, right, marked, list)
}
