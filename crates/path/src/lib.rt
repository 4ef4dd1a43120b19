// MatrixPath on the machine: a walk over the marked rows from the source vertex (crate path_walk), which fills a path matrix of its own; the caller's matrix is written once nothing can be refused any more.

#![tactic(auto)]

ghost use Rattle.std.specs.Prelude.{◌≡◌, [], ◌∷◌, ◌++◌, ◌≤◌, length, take, drop};
ghost use Rattle.refusal.specs.Outcomes.{refusal_of};
ghost use Rattle.in_use.specs.Tables.{table_in};
ghost use Rattle.slice.specs.Slices.{size, component};
ghost use Rattle.star_spec.specs.MatrixPath.{matrix_path, matrix_after};
ghost use Rattle.star_spec.specs.Refusals.{wrong_source, few_words, unreached, before_walk, refusal};
ghost use Rattle.path.specs.Steps.Walks.{claim_walk, own_path, own_after};

use in_use::InUse;
use path_walk::walk;
use refusal::{Cause, Refusal};
use slice::rows::rows_among;
use slice::{Slice, WORDS};
use table_checks::{refused_at, refused_if};

// The words of a path matrix with as many columns as there can be vertices; a column has those of a slice.
pub const ALL_WORDS: usize = 4080;

// Cause 10: the smallest vertex of 1 to n that is not reached.
fn joined_check(n: u32, reached: Slice) -> Result<(), Refusal>
    requires { n ≤ size }
    ensures { refusal_of result ≡ unreached n (component reached) }
{
    let v = slice::fnd(slice::not(reached));
    if (n as usize) < v {
        return Ok(());
    }
    refused_at(Cause::NotJoined as u32, v as u32)
}

// The first `count` words of r become those of `own`.
fn fill(r: &mut [u64], own: &[u64], count: usize)
    requires { (count ≤ length r.old) × (count ≤ length own.now) }
    ensures { r.new ≡ take count own.now ++ drop count r.old }
{
    r[..count].copy_from_slice(&own[..count]);
}

// Causes 7 and 8: the source vertex, and the size of the matrix.
fn call_check(n: u32, s: u32, words: usize) -> Result<(), Refusal>
    ensures { refusal_of result ≡ refusal (wrong_source n s ∷ few_words n words ∷ []) }
{
    refused_if(s == 0 || n < s, Cause::BadSource as u32)?;
    refused_if(words < WORDS * n as usize, Cause::ShortMatrix as u32)
}

// Causes 1 to 4, 15 and 6 to 9.
fn path_check(
    n: u32,
    table: InUse,
    left: &[u8],
    right: &[u8],
    weight: &[u8],
    mark: &[u8],
    s: u32,
    words: usize,
) -> Result<(), Refusal>
    ensures { let c = table_in n table left.now right.now weight.now mark.now in
        refusal_of result ≡ refusal (before_walk c s words) }
{
    let m = table.m;
    let rows = table.rows;
    table_checks::claim_check(n, m, table.whole, rows, left, right, weight, mark)?;
    call_check(n, s, words)?;
    table_checks::count_check(n, m, rows, mark)
}

// The walk over the rows of a slice among the first m that the claim marks, and cause 10.
fn claim_walk(
    n: u32,
    m: usize,
    rows: Slice,
    left: &[u8],
    right: &[u8],
    mark: &[u8],
    s: u32,
    own: &mut [u64],
) -> Result<(), Refusal>
    requires { n ≤ size }
    ensures answer { refusal_of result ≡ unreached n (claim_walk n m (component rows) left.now right.now mark.now s own.old).reached }
    ensures words { own.new ≡ (claim_walk n m (component rows) left.now right.now mark.now s own.old).words }
{
    let marked = claim::claim_rows(mark, rows_among(m, rows));
    let reached = walk(left, right, marked, s, n, own);
    joined_check(n, reached)
}

// MatrixPath in a matrix that is lent for the walk, where the caller's matrix has so many words: all causes, those before the walk and then cause 10. Where none applies, the first n columns of `own` are the paths.
pub fn path_own(
    n: u32,
    table: InUse,
    left: &[u8],
    right: &[u8],
    weight: &[u8],
    mark: &[u8],
    s: u32,
    words: usize,
    own: &mut [u64],
) -> Result<(), Refusal>
    ensures answer { let c = table_in n table left.now right.now weight.now mark.now in
        refusal_of result ≡ own_path c s words own.old }
    ensures words { let c = table_in n table left.now right.now weight.now mark.now in
        own.new ≡ own_after c s words own.old }
{
    path_check(n, table, left, right, weight, mark, s, words)?;
    claim_walk(n, table.m, table.rows, left, right, mark, s, own)
}

// MatrixPath over a table of either kind: every refusal is settled, the walk's too, before the first 16 n words of r are written.
pub fn matrix_path(
    n: u32,
    table: InUse,
    left: &[u8],
    right: &[u8],
    weight: &[u8],
    mark: &[u8],
    s: u32,
    r: &mut [u64],
) -> Result<(), Refusal>
    ensures { let c = table_in n table left.now right.now weight.now mark.now in
        (refusal_of result ≡ matrix_path c s r.old) × (r.new ≡ matrix_after c s r.old) }
{
    let mut own = [0u64; ALL_WORDS];
    let words = r.len();
    path_own(n, table, left, right, weight, mark, s, words, &mut own)?;
    fill(r, &own, WORDS * n as usize);
    Ok(())
}
