// Groups and rings of any marks on the machine. The lent groups' column holds a label for each vertex, the smallest vertex of its group so far, and a path matrix of its own a column for each vertex.
// The marked rows are visited from the top. A row between two groups makes them one: the larger label becomes the smaller, and the columns of its vertices are turned over by the row's ring,
// so that the columns of the ends of every such row differ in that row alone. A row inside a group closes a ring: itself, and the rows in which the columns of its ends differ.

#![tactic(auto)]

ghost use Rattle.std.specs.Prelude.{ℕ, ◌≤◌, eqb, length, ◌≡◌};
ghost use Rattle.groups_spec.specs.Groups.{groups_causes, groups_answer, groups_after, rings_after};
ghost use Rattle.in_use.specs.Tables.{table_in};
ghost use Rattle.mend_groups.specs.Steps.Machine.{all_renamed};
ghost use Rattle.refusal.specs.Outcomes.{refusal_of};
ghost use Rattle.rowset.specs.Bytes.{in_row};
ghost use Rattle.rowset.specs.Sets.{empty, count};
ghost use Rattle.slice.specs.Slices.{component};
ghost use Rattle.star_spec.specs.Refusals.{refusal};
ghost use Rattle.groups.specs.Answers.{answer_of};
ghost use Rattle.groups.specs.Steps.Machine.{state_of, ring_at, column_turned, columns_turned, visit_at, row_at, visits, all_visited};

use in_use::InUse;
use mend_groups::{own_labels, rename_all};
use refusal::{Cause, Refusal};
use slice::Slice;
use table_checks::{claim_check, refused_if, row_byte, size_check};

// The words of a path matrix with as many columns as there can be vertices.
const ALL_WORDS: usize = 4080;

// The number of groups, and of the marked rows that close a ring.
#[derive(Clone, Copy)]
pub struct Counts {
    pub groups: u32,
    pub rings: u32,
}

// The ring of row i with ends a and b: the row, and the rows in which the columns of its ends differ.
fn ring_at(own: &[u64], a: usize, b: usize, i: usize) -> Slice
    ensures { component result ≡ ring_at own.now a b i }
{
    let x = path_matrix::read_column(own, a);
    let y = path_matrix::read_column(own, b);
    slice::put(slice::xor(x, y), i, true)
}

// Column v is turned over by a ring where vertex v has label x.
fn turn_column(labels: &[u8], own: &mut [u64], v: usize, x: u8, ring: Slice)
    ensures { own.new ≡ column_turned labels.now own.old v x (component ring) }
{
    if row_byte(labels, v) == x {
        let old = path_matrix::read_column(own, v);
        path_matrix::write_column(own, v, slice::xor(old, ring));
    }
}

// Columns 1 to n are turned over by a ring where their vertices have label x.
fn turn_columns(labels: &[u8], own: &mut [u64], n: usize, x: u8, ring: Slice)
    ensures { own.new ≡ columns_turned labels.now own.old n x (component ring) }
{
    for v in 0..n {
        turn_column(labels, own, v + 1, x, ring);
    }
}

// The group of label x comes to that of label y, over a row with this ring.
fn join(n: usize, x: u8, y: u8, ring: Slice, labels: &mut [u8], own: &mut [u64])
    ensures labels { labels.new ≡ all_renamed labels.old x y }
    ensures own { own.new ≡ columns_turned labels.old own.old n x (component ring) }
{
    turn_columns(labels, own, n, x, ring);
    rename_all(labels, x, y);
}

// A marked row is visited: it closes a ring, which comes to the rings, or joins two groups.
fn visit(
    n: usize,
    left: &[u8],
    right: &[u8],
    i: usize,
    rings: Slice,
    labels: &mut [u8],
    own: &mut [u64],
) -> Slice
    ensures { state_of result labels.new own.new ≡ visit_at n left.now right.now i (state_of rings labels.old own.old) }
{
    let a = row_byte(left, i);
    let b = row_byte(right, i);
    let x = row_byte(labels, a as usize);
    let y = row_byte(labels, b as usize);
    let ring = ring_at(own, a as usize, b as usize, i);
    if x == y {
        return slice::or(rings, ring);
    }
    join(n, x.max(y), x.min(y), ring, labels, own);
    rings
}

// Row i is visited where it is marked.
fn visit_marked(
    n: usize,
    left: &[u8],
    right: &[u8],
    marked: Slice,
    i: usize,
    rings: Slice,
    labels: &mut [u8],
    own: &mut [u64],
) -> Slice
    ensures { state_of result labels.new own.new ≡ row_at (component marked) n left.now right.now i (state_of rings labels.old own.old) }
{
    if !slice::get(marked, i) {
        return rings;
    }
    visit(n, left, right, i, rings, labels, own)
}

// Rows 1 to m are visited where they are marked: the rows that close a ring.
fn visit_rows(
    n: usize,
    m: usize,
    left: &[u8],
    right: &[u8],
    marked: Slice,
    labels: &mut [u8],
    own: &mut [u64],
) -> Slice
    ensures { state_of result labels.new own.new ≡ visits (row_at (component marked) n left.now right.now) m (record { rings = empty; labels = labels.old; own = own.old }) }
{
    let mut rings = Slice::empty();
    for i in 0..m {
        rings = visit_marked(n, left, right, marked, i + 1, rings, labels, own);
    }
    rings
}

// The groups' labels, and the rows that close a ring, of the marked rows of 1 to m.
fn find(n: usize, m: usize, left: &[u8], right: &[u8], marked: Slice, labels: &mut [u8]) -> Slice
    requires { length labels.old ≤ 255 }
    ensures labels { labels.new ≡ (all_visited n m left.now right.now (component marked) (length labels.old)).labels }
    ensures rings { component result ≡ (all_visited n m left.now right.now (component marked) (length labels.old)).rings }
{
    own_labels(labels);
    let mut own = [0u64; ALL_WORDS];
    visit_rows(n, m, left, right, marked, labels, &mut own)
}

// Whether vertex v has its own label.
fn has_own(labels: &[u8], v: usize) -> bool
    ensures { result ≡ eqb (in_row 1 labels.now v) v }
{
    row_byte(labels, v) as usize == v
}

// The number of vertices of 1 to n that have their own label.
fn count_own(labels: &[u8], n: usize) -> u32
    requires { n ≤ 255 }
    ensures { result ≡ count n (λ v. eqb (in_row 1 labels.now v) v) }
{
    let mut total: u32 = 0;
    for v in 0..n {
        total += u32::from(has_own(labels, v + 1));
    }
    total
}

// Causes 1 to 4, 15 and 6; 3 looks at both lent columns.
fn call_check(
    n: u32,
    table: InUse,
    left: &[u8],
    right: &[u8],
    weight: &[u8],
    mark: &[u8],
    groups: &[u8],
    rings: &[u8],
) -> Result<(), Refusal>
    ensures { let c = table_in n table left.now right.now weight.now mark.now in
        refusal_of result ≡ refusal (groups_causes c groups.now rings.now) }
{
    let m = table.m;
    size_check(n, m)?;
    refused_if(groups.len() != n as usize, Cause::BadLengths as u32)?;
    refused_if(rings.len() != m, Cause::BadLengths as u32)?;
    claim_check(n, m, table.whole, table.rows, left, right, weight, mark)
}

// Groups and rings over a table of either kind: the refusal, and both lent columns stay as they were;
// or the numbers of groups and of rows that close a ring, and the columns are each vertex's group, and 1 at these rows and 0 elsewhere, also at rows that are not in use.
pub fn groups(
    n: u32,
    table: InUse,
    left: &[u8],
    right: &[u8],
    weight: &[u8],
    mark: &[u8],
    groups: &mut [u8],
    rings: &mut [u8],
) -> Result<Counts, Refusal>
    ensures { let c = table_in n table left.now right.now weight.now mark.now in
        (answer_of result ≡ groups_answer c groups.old rings.old)
        × (groups.new ≡ groups_after c groups.old rings.old)
        × (rings.new ≡ rings_after c groups.old rings.old) }
{
    call_check(n, table, left, right, weight, mark, groups, rings)?;
    let m = table.m;
    let marked = claim::claim_rows(mark, slice::rows::rows_among(m, table.rows));
    let found = find(n as usize, m, left, right, marked, groups);
    claim::write_claim(rings, found);
    Ok(Counts {
        groups: count_own(groups, n as usize),
        rings: slice_words::count_rows(found) as u32,
    })
}
