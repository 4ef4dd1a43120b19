// The searches MATCH, MIN, MAX and GREAT over the rows of a table that a slice selects. Their loops stand in the crates `search_match`, `search_great` and `search_extremes`, over columns that are lent, where the first columns may be left out.
// What a row holds in the others is the row itself, for MATCH, where every row is below 2 ^ (32 - first) (the law `small_row`); the integer is the row's, for GREAT, MIN and MAX, where `sign_columns` are left out (the law `sign-row`).

#![tactic(auto)]

ghost use Rattle.std.specs.Prelude.{◌≡◌};
ghost use Rattle.rowset.specs.Columns.{repeated_columns};
ghost use Rattle.rowset.specs.Counts.{columns_read};
ghost use Rattle.rowset.specs.Integers.{signed};
ghost use Rattle.rowset.specs.Searches.{equal_to, greater_than, same_as, smallest, largest};
ghost use Rattle.slice.specs.Slices.{size, component};
ghost use Rattle.table.specs.Tables.{column, row};

use search_great::Compared;
use search_match::Matched;
use slice::Slice;
use table::Table;

// The number of columns of a table.
const WIDTH: usize = 32;

// The number of columns on the left that GREAT, MIN and MAX may leave out: those before the last of the columns on the left that equal column 1.
pub fn sign_columns(t: Table) -> usize
    ensures { result ≡ repeated_columns size (column t) 1 31 }
{
    let sign = t.columns[0];
    for j in 1..WIDTH {
        if slice::some(slice::xor(sign, t.columns[j])) {
            return j - 1;
        }
    }
    WIDTH - 1
}

// MATCH: the selected rows that equal w.
pub fn match_rows(t: Table, w: u32, x: Slice) -> Slice
    ensures { component result ≡ equal_to (row t) w (component x) }
{
    let stored = search_columns::columns_of(t);
    search_match::match_from(&stored.columns, 0, w, x)
}

// MATCH whole: the selected rows that equal w, and the number of columns read from column 32 to the left until no row was left in the running.
pub fn match_count(t: Table, w: u32, x: Slice) -> Matched
    ensures rows { component result.rows ≡ equal_to (row t) w (component x) }
    ensures read { result.read ≡ columns_read size (column t) w (component x) }
{
    let stored = search_columns::columns_of(t);
    search_match::match_right(&stored.columns, 0, w, x)
}

// GREAT: the selected rows that are greater than w, in the order of the integers that 32 bits stand for, and those that equal it.
pub fn great(t: Table, w: u32, x: Slice) -> Compared
    ensures greater { component result.greater ≡ greater_than (λ i. signed (row t i)) (signed w) (component x) }
    ensures equal { component result.equal ≡ same_as (λ i. signed (row t i)) (signed w) (component x) }
{
    let stored = search_columns::columns_of(t);
    search_great::great_from(&stored.columns, 0, w, x)
}

// MIN: the selected rows than which no selected row is smaller, in that order.
pub fn min(t: Table, x: Slice) -> Slice
    ensures { component result ≡ smallest size (λ i. signed (row t i)) (component x) }
{
    let stored = search_columns::columns_of(t);
    search_extremes::min_from(&stored.columns, 0, x)
}

// MAX: the selected rows than which no selected row is larger, in that order.
pub fn max(t: Table, x: Slice) -> Slice
    ensures { component result ≡ largest size (λ i. signed (row t i)) (component x) }
{
    let stored = search_columns::columns_of(t);
    search_extremes::max_from(&stored.columns, 0, x)
}
