// The breaking price of a row: over all routes between its ends that do not use it, the least possible heaviest row; or none where no such route exists. Nothing lent is written.
// The trees are built in one step (`around_rows`), the walk is made in another (`told`), so that what one takes of the stack is given back before the other.

#![tactic(auto)]

ghost use Rattle.std.specs.Prelude.{◌≡◌};
ghost use Rattle.path_matrix.specs.Matrix.{matrix_column};
ghost use Rattle.path_walk.specs.Steps.Walks.{walk};
ghost use Rattle.slice.specs.Slices.{component};
ghost use Rattle.in_use.specs.Tables.{table_in};
ghost use Rattle.table.specs.Loads.{loaded_row};
ghost use Rattle.breaking.specs.Answers.{answer_of};
ghost use Rattle.breaking.specs.Steps.Routes.{said_of, said, heaviest_price, told};

use in_use::InUse;
use refusal::{Cause, Refusal};
use slice::Slice;

// What the trees say of a row: the rows of a tree that is built without it, where there is one; else the answer. Beside a route the answer is the price 0.
#[derive(Clone, Copy)]
pub struct Around {
    pub answer: Result<Option<u32>, Refusal>,
    pub route: Option<Slice>,
}

// The rows by which the walk over the rows of a tree comes from vertex u to vertex v. The walk fills a path matrix that is lent.
fn path_between(
    n: u32,
    left: &[u8],
    right: &[u8],
    tree: Slice,
    u: u32,
    v: usize,
    own: &mut [u64],
) -> Slice
    ensures { component result ≡ matrix_column (walk (loaded_row 1 left.now) (loaded_row 1 right.now) (component tree) u own.old n).words v }
{
    path_walk::walk(left, right, tree, u, n, own);
    path_matrix::read_column(own, v)
}

// The price of the uppermost of a slice's heaviest rows.
fn heaviest_price(weight: &[u8], x: Slice) -> u32
    ensures { result ≡ heaviest_price weight.now (component x) }
{
    let mut weights = [0u64; table_loads::ALL];
    table_loads::put_prices(weight, &mut weights);
    let heaviest = slice::fnd(search_extremes::max_from(&weights, 0, x));
    table_checks::row_weight(weight, heaviest)
}

// What the trees of a table of either kind say of a row: the rows of a tree that is built without it, where there is one; else that there is no route, where a tree is built only with it, or the refusal.
pub fn around_rows(
    n: u32,
    table: InUse,
    left: &[u8],
    right: &[u8],
    weight: &[u8],
    row: u32,
) -> Around
    ensures { let c = table_in n table left.now right.now weight.now left.now in
        said_of result ≡ said c row }
{
    if let Err(refusal) = quote::row_check(n, table, left, right, weight, row) {
        return Around {
            answer: Err(refusal),
            route: None,
        };
    }
    let others = slice::put(table.rows, row as usize, false);
    if let Some(tree) = mst1::tree_of(n, table.m, others, left, right, weight) {
        return Around {
            answer: Ok(Some(0)),
            route: Some(tree),
        };
    }
    if mst1::tree_of(n, table.m, table.rows, left, right, weight).is_none() {
        return Around {
            answer: Err(Refusal::of(Cause::NoNetwork as u32)),
            route: None,
        };
    }
    Around {
        answer: Ok(None),
        route: None,
    }
}

// The answer: where there is a route, the heaviest row on the tree's path between the row's ends has the breaking price.
pub fn told(
    n: u32,
    left: &[u8],
    right: &[u8],
    weight: &[u8],
    row: u32,
    around: Around,
) -> Result<Option<u32>, Refusal>
    ensures { answer_of result ≡ told n left.now right.now weight.now row (said_of around) }
{
    let Some(tree) = around.route else {
        return around.answer;
    };
    let u = table_checks::row_byte(left, row as usize) as u32;
    let v = table_checks::row_byte(right, row as usize) as usize;
    let mut own = [0u64; path::ALL_WORDS];
    let path = path_between(n, left, right, tree, u, v, &mut own);
    Ok(Some(heaviest_price(weight, path)))
}
