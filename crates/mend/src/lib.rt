// Mending an old claim: marks that close a ring are dropped, rows that join two groups are added (crate mend_groups), and each unmarked row from the top is exchanged for the heaviest row of its path where that is heavier.
// Each drop, addition and exchange becomes a record, kept in a list of the mender's own. The claim and the lent list of records are written once nothing can be refused any more.

#![tactic(auto)]

ghost use Rattle.std.specs.Prelude.{◌*◌, ◌^◌, ◌-◌, ◌<◌, ◌≤◌, length, cond, ◌≡◌};
ghost use Rattle.std.proofs.Math.Option.{none};
ghost use Rattle.path_matrix.specs.Matrix.{matrix_column};
ghost use Rattle.refusal.specs.Outcomes.{refusal_of};
ghost use Rattle.rowset.specs.Bytes.{in_row};
ghost use Rattle.rowset.specs.Columns.{width};
ghost use Rattle.rowset.specs.Integers.{integer_in, signed};
ghost use Rattle.rowset.specs.Sets.{up_to, both};
ghost use Rattle.slice.specs.Slices.{size, component};
ghost use Rattle.in_use.specs.Tables.{table_in};
ghost use Rattle.star_spec.specs.Call.{claim_of};
ghost use Rattle.star_spec.specs.MatrixPath.{matrix_path, matrix_after};
ghost use Rattle.star_spec.specs.Refusals.{or_else, refusal};
ghost use Rattle.table.specs.Loads.{loaded_row};
ghost use Rattle.mend_spec.specs.Mend.{claim_causes, few_records, redrawn, mend, mend_marks, mend_list};
ghost use Rattle.mend.specs.Answers.{answer_of};
ghost use Rattle.mend_groups.specs.Steps.Machine.{state_of, visits};
ghost use Rattle.mend.specs.Steps.Machine.{out_of, swapped, swap_at};

use claim::flipped_weight;
use in_use::InUse;
use mend_groups::{Drawn, RECORDS};
use mend_list::write_records;
use mend_record::{Kind, Record};
use refusal::{Cause, Refusal};
use slice::rows::rows_among;
use slice::{SIZE, Slice};

// What stands in the list where no record was noted.
const NO_RECORD: Record = Record {
    kind: 0,
    out: 0,
    into: 0,
};

// FND of MAX: the heaviest row of a path, the uppermost among equals, where it is heavier than row i; else 0. `weights` has the words of the weight column as a table, of which the first columns are left out.
fn row_out(path: Slice, weights: &[u64], first: usize, weight: &[u8], i: usize) -> usize
    ensures { result ≡ out_of (integer_in (matrix_column weights.now) first (width - first)) weight.now (component path) i }
{
    let e = slice::fnd(search_extremes::max_from(weights, first, path));
    if flipped_weight(weight, i) < flipped_weight(weight, e) {
        return e;
    }
    0
}

// Row out of row i's path goes out and row i comes in: the columns of the path matrix that have it are turned over by the ring.
fn swap(
    n: usize,
    path: Slice,
    out: usize,
    i: usize,
    s: Drawn,
    list: &mut [Record],
    own: &mut [u64],
) -> Drawn
    requires { (out ≤ size) × (i < 2 ^ 32) × (s.count < length list.old) }
    ensures { state_of result list.new own.new ≡ swapped n (component path) out i (state_of s list.old own.old) }
{
    path_exchange::turn_columns(own, n, out, slice::put(path, i, true));
    list[s.count] = Record {
        kind: Kind::Exchange as u32,
        out: out as u32,
        into: i as u32,
    };
    Drawn {
        marks: slice::put(slice::put(s.marks, out, false), i, true),
        count: s.count + 1,
    }
}

// The third pass at row i: where the heaviest row of an unmarked row's path is heavier, the two are exchanged.
fn swap_at(
    n: usize,
    used: Slice,
    left: &[u8],
    right: &[u8],
    weight: &[u8],
    weights: &[u64],
    first: usize,
    i: usize,
    s: Drawn,
    list: &mut [Record],
    own: &mut [u64],
) -> Drawn
    requires { (i < 2 ^ 32) × (s.count < length list.old) }
    ensures { state_of result list.new own.new ≡ swap_at n (component used) (integer_in (matrix_column weights.now) first (width - first)) left.now right.now weight.now i (state_of s list.old own.old) }
{
    if !slice::get(used, i) {
        return s;
    }
    if slice::get(s.marks, i) {
        return s;
    }
    let path = path_exchange::path_of(own, left, right, i);
    let out = row_out(path, weights, first, weight, i);
    if out == 0 {
        return s;
    }
    swap(n, path, out, i, s, list, own)
}

// The third pass over rows 1 to m.
fn swap_rows(
    n: usize,
    m: usize,
    used: Slice,
    left: &[u8],
    right: &[u8],
    weight: &[u8],
    weights: &[u64],
    first: usize,
    start: Drawn,
    list: &mut [Record],
    own: &mut [u64],
) -> Drawn
    requires { (m ≤ size) × (start.count ≤ 2 * m) × (3 * m ≤ length list.old) }
    ensures passed { state_of result list.new own.new ≡ visits (swap_at n (component used) (integer_in (matrix_column weights.now) first (width - first)) left.now right.now weight.now) m (state_of start list.old own.old) }
    ensures few { result.count ≤ 3 * m }
{
    let mut s = start;
    for i in 0..m {
        s = swap_at(
            n,
            used,
            left,
            right,
            weight,
            weights,
            first,
            i + 1,
            s,
            list,
            own,
        );
    }
    s
}

// The third pass with the weight column stored once as a table's columns. The weight column is one that can be loaded.
fn exchange_rows(
    n: usize,
    m: usize,
    used: Slice,
    left: &[u8],
    right: &[u8],
    weight: &[u8],
    start: Drawn,
    list: &mut [Record; RECORDS],
    own: &mut [u64],
) -> Drawn
    requires { (m ≤ size) × (start.count ≤ 2 * m) × (loaded_row 4 weight.now ≡ in_row 4 weight.now) }
    ensures passed { state_of result list.new own.new ≡ visits (swap_at n (component used) (λ k. signed (in_row 4 weight.now k)) left.now right.now weight.now) m (state_of start list.old own.old) }
    ensures few { result.count ≤ 3 * m }
{
    let mut weights = [0u64; table_loads::ALL];
    table_loads::put_prices(weight, &mut weights);
    let first = table_loads::sign_columns(&weights);
    swap_rows(
        n, m, used, left, right, weight, &weights, first, start, list, own,
    )
}

// MatrixPath from vertex 1 of the claim that marks these rows.
fn tree_paths(
    n: u32,
    table: InUse,
    left: &[u8],
    right: &[u8],
    weight: &[u8],
    marks: Slice,
    own: &mut [u64],
) -> Result<(), Refusal>
    requires { table.m ≤ size }
    ensures { let c = table_in n table left.now right.now weight.now (claim_of table.m (component marks)) in
        (refusal_of result ≡ matrix_path c 1 own.old) × (own.new ≡ matrix_after c 1 own.old) }
{
    let mut plan = [0u8; SIZE];
    claim::write_claim(&mut plan, marks);
    path::matrix_path(n, table, left, right, weight, &plan[..table.m], 1, own)
}

// The byte of row i in the mended claim: as it was where the row is not in use.
fn mark_of(old: u8, used: Slice, marks: Slice, i: usize) -> u8
    ensures { result ≡ cond (component used i) (cond (component marks i) 1 0) old }
{
    if slice::get(used, i) {
        return u8::from(slice::get(marks, i));
    }
    old
}

// The mended claim is written, at rows in use alone.
fn write_marks(mark: &mut [u8], used: Slice, marks: Slice)
    ensures { mark.new ≡ redrawn (component used) (component marks) mark.old }
{
    for (i, byte) in mark.iter_mut().enumerate() {
        *byte = mark_of(*byte, used, marks, i + 1);
    }
}

// Causes 1 to 4, 15 and 6, and 16 where a list of so many records has fewer than two a row.
fn mend_check(
    n: u32,
    table: InUse,
    left: &[u8],
    right: &[u8],
    weight: &[u8],
    mark: &[u8],
    records: usize,
) -> Result<(), Refusal>
    ensures { let c = table_in n table left.now right.now weight.now mark.now in
        refusal_of result ≡ or_else (refusal (claim_causes c)) (few_records table.m records) }
{
    table_checks::claim_check(
        n,
        table.m,
        table.whole,
        table.rows,
        left,
        right,
        weight,
        mark,
    )?;
    table_checks::refused_if(records / 2 < table.m, Cause::ShortRecords as u32)
}

// The three passes over a call that nothing but cause 11 can refuse: the claim and the lent list are written once a tree is known to exist.
fn redraw(
    n: u32,
    table: InUse,
    left: &[u8],
    right: &[u8],
    weight: &[u8],
    mark: &mut [u8],
    records: &mut [Record],
) -> Result<u32, Refusal>
    requires { or_else (refusal (claim_causes (table_in n table left.now right.now weight.now mark.old))) (few_records table.m (length records.old)) ≡ none }
    ensures { let c = table_in n table left.now right.now weight.now mark.old in
        (answer_of result ≡ mend c (length records.old)) × (mark.new ≡ mend_marks c (length records.old)) × (records.new ≡ mend_list c records.old) }
{
    let m = table.m;
    let used = rows_among(m, table.rows);
    let marked = claim::claim_rows(mark, used);
    let mut list = [NO_RECORD; RECORDS];
    let joined = mend_groups::two_passes(m, used, left, right, marked, &mut list);
    let mut own = [0u64; path::ALL_WORDS];
    let walked = tree_paths(n, table, left, right, weight, joined.marks, &mut own);
    let Ok(()) = walked else {
        return Err(Refusal::of(Cause::NoNetwork as u32));
    };
    let least = exchange_rows(
        n as usize, m, used, left, right, weight, joined, &mut list, &mut own,
    );
    write_marks(mark, used, least.marks);
    write_records(records, &list[..least.count]);
    Ok(least.count as u32)
}

// Mending over a table of either kind: the refusal, and the claim and the lent list stay as they were; or the number of records, which stand at the top of the list, and the mended claim.
pub fn mend(
    n: u32,
    table: InUse,
    left: &[u8],
    right: &[u8],
    weight: &[u8],
    mark: &mut [u8],
    records: &mut [Record],
) -> Result<u32, Refusal>
    ensures { let c = table_in n table left.now right.now weight.now mark.old in
        (answer_of result ≡ mend c (length records.old)) × (mark.new ≡ mend_marks c (length records.old)) × (records.new ≡ mend_list c records.old) }
{
    mend_check(n, table, left, right, weight, mark, records.len())?;
    redraw(n, table, left, right, weight, mark, records)
}
