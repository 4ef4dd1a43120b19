// Districts first, then the city: for each run of the rows a least forest, and then a tree from the forests' rows alone.

#![tactic(auto)]

ghost use Rattle.std.specs.Prelude.{◌≡◌, is_some};
ghost use Rattle.districts_spec.specs.Districts.{bad_runs, run_causes, districts_answer, districts_forests, districts_marks};
ghost use Rattle.districts_theory.specs.Districts.{rises_to};
ghost use Rattle.mst1.specs.Answers.{answer_of};
ghost use Rattle.search_columns.specs.Steps.Integers.{integers_after};
ghost use Rattle.mst1.specs.Steps.Growth.{graph_by, loaded_graph, chosen_in};
ghost use Rattle.refusal.specs.Outcomes.{refusal_of};
ghost use Rattle.rowset.specs.Integers.{signed};
ghost use Rattle.slice.specs.Slices.{component};
ghost use Rattle.in_use.specs.Tables.{table_in};
ghost use Rattle.star_spec.specs.Refusals.{refusal};
ghost use Rattle.table.specs.Loads.{loaded_row};
ghost use Rattle.districts.specs.Steps.Divided.{Divided};

use in_use::InUse;
use refusal::{Cause, Refusal};
use slice::Slice;
use table_checks::{refused_if, size_check, table_check};

// The largest number of ends that is taken.
pub const MAX_ENDS: usize = 8;

// What was grown: the forests' rows, and those of the tree, where there is one.
#[derive(Clone, Copy)]
pub struct City {
    pub forests: Slice,
    pub tree: Option<Slice>,
}

// Whether each end is above the one before, the first above 0, and the last is m; without an end, whether m is 0.
fn ends_rise(ends: &[u32], m: usize) -> bool
    ensures { result ≡ rises_to m 0 ends.now }
{
    let mut p: usize = 0;
    for end in ends {
        let q = *end as usize;
        if q <= p {
            return false;
        }
        p = q;
    }
    p == m
}

// Cause 14.
fn runs_check(ends: &[u32], m: usize) -> Result<(), Refusal>
    ensures { refusal_of result ≡ bad_runs m ends.now }
{
    let rising = ends_rise(ends, m);
    refused_if(MAX_ENDS < ends.len() || !rising, Cause::BadRuns as u32)
}

// Causes 1 to 4, 15 and 14; 3 looks at both lent columns.
pub fn call_check(
    n: u32,
    table: InUse,
    left: &[u8],
    right: &[u8],
    weight: &[u8],
    ends: &[u32],
    forests: &[u8],
    mark: &[u8],
) -> Result<(), Refusal>
    ensures { let c = table_in n table left.now right.now weight.now mark.now in
        refusal_of result ≡ refusal (run_causes c forests.now ends.now) }
{
    let m = table.m;
    size_check(n, m)?;
    refused_if(forests.len() != m, Cause::BadLengths as u32)?;
    table_check(n, m, table.whole, table.rows, left, right, weight, mark)?;
    runs_check(ends, m)
}

// The forests of the runs of a slice's rows, and the tree of n vertices from the forests' rows alone, over byte columns of ends and lent columns of weights; of the weights the first columns are left out.
fn grow_city(
    left: &[u8],
    right: &[u8],
    weight: &[u64],
    first: usize,
    rows: Slice,
    n: usize,
    ends: &[u32],
) -> City
    ensures { Divided (graph_by (loaded_row 1 left.now) (loaded_row 1 right.now) rows n) (integers_after weight.now first) ends.now (component result.forests) (is_some result.tree) (chosen_in result.tree) }
{
    let forests = districts_forests::forests_of(left, right, weight, first, rows, n, ends);
    let tree = mst1::grow_tree(left, right, weight, first, forests, n);
    City { forests, tree }
}

// The same over the rows of a slice among the first m, with the weights as they are loaded.
pub fn city_of(
    n: u32,
    m: usize,
    rows: Slice,
    left: &[u8],
    right: &[u8],
    weight: &[u8],
    ends: &[u32],
) -> City
    ensures { let g = loaded_graph n m (component rows) left.now right.now in
        Divided g (λ i. signed (loaded_row 4 weight.now i)) ends.now (component result.forests) (is_some result.tree) (chosen_in result.tree) }
{
    let mut weights = [0u64; table_loads::ALL];
    table_loads::put_prices(weight, &mut weights);
    let first = table_loads::sign_columns(&weights);
    let used = slice::rows::rows_among(m, rows);
    grow_city(left, right, &weights, first, used, n as usize, ends)
}

// Districts and city over a table of either kind: the refusal, and both lent columns stay as they were;
// or the tree's weight, and the columns are 1 at the forests' and at the tree's rows and 0 elsewhere, also at rows that are not in use.
pub fn districts(
    n: u32,
    table: InUse,
    left: &[u8],
    right: &[u8],
    weight: &[u8],
    ends: &[u32],
    forests: &mut [u8],
    mark: &mut [u8],
) -> Result<u64, Refusal>
    ensures { let c = table_in n table left.now right.now weight.now mark.old in
        (answer_of result ≡ districts_answer c forests.old ends.now)
        × (forests.new ≡ districts_forests c forests.old ends.now)
        × (mark.new ≡ districts_marks c forests.old ends.now) }
{
    call_check(n, table, left, right, weight, ends, forests, mark)?;
    let city = city_of(n, table.m, table.rows, left, right, weight, ends);
    let Some(chosen) = city.tree else {
        return Err(Refusal::of(Cause::NoNetwork as u32));
    };
    claim::write_claim(forests, city.forests);
    claim::write_claim(mark, chosen);
    Ok(claim::weigh(weight, chosen))
}
