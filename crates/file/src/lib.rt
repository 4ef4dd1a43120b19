// A table file read into lent columns. The text is read whole, into columns of its own, before a lent column is written.

#![tactic(auto)]

ghost use Rattle.std.specs.Prelude.{◌≡◌, cond, List, ◌++◌, map, ℕ, ◌*◌, ◌≤◌, max, eqb, length, take, drop, get_or, Ok, OnOk};
ghost use Rattle.rowset.specs.Words.{column_words, column_words_from};
ghost use Rattle.slice.specs.Slices.{component};
ghost use Rattle.file_spec.specs.Reader.{read, opens_marked, body_at, told_or, largest, nothing_read};
ghost use Rattle.file_spec.specs.Table.{reading, wrong_sizes, unstruck, answered, filled, file_answer, lent_after};
ghost use Rattle.file_reader.specs.Steps.State.{is_one, told_of, read_of, resumed, Sized, Columns, Sound};
ghost use Rattle.file.specs.Answers.{answer_of, lent_of};
ghost use Rattle.file.specs.Steps.Stored.{Fitting, stored};

use claim::claim_rows;
use file_line::ReadError;
use file_reader::read_lines;
use file_text::NAMES;
use refusal::Cause;
use slice::Slice;
use slice::difference::without;
use slice::rows::rows_to;

// The longest text that is read, the rows of a column, and the words that say which of them are in use.
pub const MAX_TEXT: usize = 16777216;

pub const ROWS: usize = 1024;

const WEIGHT_BYTES: usize = 4096;

const WORDS: usize = 16;

// The number of junctions, of names and of rows that were read.
#[derive(Clone, Copy)]
pub struct Sizes {
    pub n: u32,
    pub names: u32,
    pub rows: u32,
}

// Whether a text opens with a byte order mark.
fn opens_marked(text: &[u8]) -> bool
    ensures { result ≡ opens_marked text.now }
{
    text.starts_with(&[239, 187, 191])
}

// Where the lines of a text begin: after the byte order mark, if there is one.
fn body_at(text: &[u8]) -> usize
    ensures { (result ≡ body_at text.now) × (result ≤ length text.now) }
{
    if opens_marked(text) { 3 } else { 0 }
}

// A whole text into columns in which nothing is read yet.
fn read_text(
    text: &[u8],
    found: &mut [u32; 5],
    starts: &mut [u32; NAMES],
    ends: &mut [u32; NAMES],
    left: &mut [u8; ROWS],
    right: &mut [u8; ROWS],
    weight: &mut [u8; WEIGHT_BYTES],
    mark: &mut [u8; ROWS],
    struck: &mut [u8; ROWS],
    rows: &mut [u32; ROWS],
) -> Result<(), ReadError>
    requires rows_value { read_of text.now found.old starts.old ends.old left.old right.old weight.old mark.old struck.old rows.old ≡ nothing_read }
    requires sized { Sized found.old starts.old ends.old × Columns left.old right.old weight.old mark.old struck.old rows.old }
    requires sound { Sound text.now found.old starts.old ends.old }
    ensures text_value { reading text.now ≡ resumed result (read_of text.now found.new starts.new ends.new left.new right.new weight.new mark.new struck.new rows.new) }
    ensures sized { Sized found.new starts.new ends.new × Columns left.new right.new weight.new mark.new struck.new rows.new }
    ensures sound { OnOk result (Sound text.now found.new starts.new ends.new) }
{
    if MAX_TEXT < text.len() {
        return Err(ReadError::at(Cause::BadText as u32, MAX_TEXT));
    }
    let from = body_at(text);
    read_lines(
        text, from, found, starts, ends, left, right, weight, mark, struck, rows,
    )
}

// The largest byte of a column, 0 where it has none.
fn largest_of(column: &[u8]) -> u32
    ensures { result ≡ largest column.now }
{
    let mut most: u32 = 0;
    for k in 0..column.len() {
        most = most.max(column[k] as u32);
    }
    most
}

// The number of junctions: what a line says, else the number of names, or the largest end.
fn junctions_of(found: [u32; 5], left: &[u8], right: &[u8]) -> u32
    requires { length found ≡ 5 }
    ensures { result ≡ told_or (told_of (get_or found 3 0) (get_or found 4 0)) (cond (eqb (get_or found 0 0) 2) (get_or found 1 0) (max (largest left.now) (largest right.now))) }
{
    if found[3] == 1 {
        return found[4];
    }
    if found[0] == 2 {
        return found[1];
    }
    largest_of(left).max(largest_of(right))
}

// The first `count` elements of a column become those of another.
fn fill<T: Copy>(column: &mut [T], own: &[T], count: usize)
    requires { (count ≤ length column.old) × (count ≤ length own.now) }
    ensures { column.new ≡ take count own.now ++ drop count column.old }
{
    column[..count].copy_from_slice(&own[..count]);
}

// The rows in use: of the m rows those that are not struck.
fn rows_in_use(struck: &[u8], m: usize) -> Slice
    requires { (m ≤ 1024) × (length struck.now ≡ 1024) }
    ensures { component result ≡ unstruck (map is_one (take m struck.now)) }
{
    let rows = rows_to(m);
    without(rows, claim_rows(struck, rows))
}

// The lent words become those of the rows in use.
fn store_in_use(words: &mut [u64], struck: &[u8], m: usize)
    requires { (length words.old ≡ column_words) × (m ≤ 1024) × (length struck.now ≡ 1024) }
    ensures { words.new ≡ column_words_from (unstruck (map is_one (take m struck.now))) 0 column_words }
{
    let x = rows_in_use(struck, m);
    path_matrix::write_column(words, 1, x);
}

// The first m rows of the lent columns become those that were read.
fn store_rows(
    m: usize,
    lefts: &[u8],
    rights: &[u8],
    weights: &[u8],
    marks: &[u8],
    left: &mut [u8],
    right: &mut [u8],
    weight: &mut [u8],
    mark: &mut [u8],
)
    requires m_bound { (m ≤ 1024) × (length lefts.now ≡ 1024) × (length rights.now ≡ 1024) × (length weights.now ≡ 4096) × (length marks.now ≡ 1024) }
    requires lent { (length left.old ≡ 1024) × (length right.old ≡ 1024) × (length weight.old ≡ 4096) × (length mark.old ≡ 1024) }
    ensures ends { left.new ≡ take m lefts.now ++ drop m left.old }
    ensures others { right.new ≡ take m rights.now ++ drop m right.old }
    ensures prices { weight.new ≡ take (4 * m) weights.now ++ drop (4 * m) weight.old }
    ensures marked { mark.new ≡ take m marks.now ++ drop m mark.old }
{
    fill(left, lefts, m);
    fill(right, rights, m);
    fill(weight, weights, 4 * m);
    fill(mark, marks, m);
}

// The places of the names and of the m rows become those that were read.
fn store_places(
    names: usize,
    m: usize,
    from: &[u32],
    to: &[u32],
    at: &[u32],
    starts: &mut [u32],
    ends: &mut [u32],
    rows: &mut [u32],
)
    requires names_bound { (names ≤ 255) × (m ≤ 1024) × (length from.now ≡ 255) × (length to.now ≡ 255) × (length at.now ≡ 1024) }
    requires lent { (length starts.old ≡ 255) × (length ends.old ≡ 255) × (length rows.old ≡ 1024) }
    ensures first { starts.new ≡ take names from.now ++ drop names starts.old }
    ensures last { ends.new ≡ take names to.now ++ drop names ends.old }
    ensures lines { rows.new ≡ take m at.now ++ drop m rows.old }
{
    fill(starts, from, names);
    fill(ends, to, names);
    fill(rows, at, m);
}

// Whether a lent column has another length.
#[tactic(auto, unfolding(file_spec::specs::Table::wrong_sizes))]
fn wrong_sizes(
    left: usize,
    right: usize,
    weight: usize,
    mark: usize,
    words: usize,
    starts: usize,
    ends: usize,
    rows: usize,
) -> bool
    ensures { result ≡ wrong_sizes left right weight mark words starts ends rows }
{
    left != ROWS
        || right != ROWS
        || weight != WEIGHT_BYTES
        || mark != ROWS
        || words != WORDS
        || starts != NAMES
        || ends != NAMES
        || rows != ROWS
}

// The lent columns become what was read.
fn store(
    names: usize,
    m: usize,
    from: &[u32],
    to: &[u32],
    lefts: &[u8],
    rights: &[u8],
    weights: &[u8],
    marks: &[u8],
    struck: &[u8],
    at: &[u32],
    left: &mut [u8],
    right: &mut [u8],
    weight: &mut [u8],
    mark: &mut [u8],
    words: &mut [u64],
    starts: &mut [u32],
    ends: &mut [u32],
    rows: &mut [u32],
)
    requires names_bound { (names ≤ 255) × (m ≤ 1024) × (length from.now ≡ 255) × (length to.now ≡ 255) × Columns lefts.now rights.now weights.now marks.now struck.now at.now }
    requires lent { Fitting (lent_of left.old right.old weight.old mark.old words.old starts.old ends.old rows.old) }
    ensures { lent_of left.new right.new weight.new mark.new words.new starts.new ends.new rows.new ≡ stored names m from.now to.now lefts.now rights.now weights.now marks.now struck.now at.now (lent_of left.old right.old weight.old mark.old words.old starts.old ends.old rows.old) }
{
    store_rows(m, lefts, rights, weights, marks, left, right, weight, mark);
    store_in_use(words, struck, m);
    store_places(names, m, from, to, at, starts, ends, rows);
}

// What follows the reading of a text into columns of its own: the sizes, and the lent columns.
fn settle(
    found: [u32; 5],
    from: &[u32],
    to: &[u32],
    lefts: &[u8],
    rights: &[u8],
    weights: &[u8],
    marks: &[u8],
    struck: &[u8],
    at: &[u32],
    left: &mut [u8],
    right: &mut [u8],
    weight: &mut [u8],
    mark: &mut [u8],
    words: &mut [u64],
    starts: &mut [u32],
    ends: &mut [u32],
    rows: &mut [u32],
) -> Sizes
    requires sized { Sized found from.now to.now × Columns lefts.now rights.now weights.now marks.now struck.now at.now }
    requires few { (get_or found 1 0 ≤ 255) × (get_or found 2 0 ≤ 1024) }
    requires lent { Fitting (lent_of left.old right.old weight.old mark.old words.old starts.old ends.old rows.old) }
    ensures answer { (text : List ℕ) → answer_of (Ok result) ≡ answered (read (read_of text found from.now to.now lefts.now rights.now weights.now marks.now struck.now at.now)) }
    ensures lent { (text : List ℕ) → Sound text found from.now to.now → lent_of left.new right.new weight.new mark.new words.new starts.new ends.new rows.new ≡ filled (read (read_of text found from.now to.now lefts.now rights.now weights.now marks.now struck.now at.now)) (lent_of left.old right.old weight.old mark.old words.old starts.old ends.old rows.old) }
{
    let m = found[2] as usize;
    let n = junctions_of(found, &lefts[..m], &rights[..m]);
    store(
        found[1] as usize,
        m,
        from,
        to,
        lefts,
        rights,
        weights,
        marks,
        struck,
        at,
        left,
        right,
        weight,
        mark,
        words,
        starts,
        ends,
        rows,
    );
    Sizes {
        n,
        names: found[1],
        rows: found[2],
    }
}

// A table file into the lent columns; a refusal leaves them as they were.
pub fn read_table(
    text: &[u8],
    left: &mut [u8],
    right: &mut [u8],
    weight: &mut [u8],
    mark: &mut [u8],
    words: &mut [u64],
    starts: &mut [u32],
    ends: &mut [u32],
    rows: &mut [u32],
) -> Result<Sizes, ReadError>
    ensures answer { answer_of result ≡ file_answer text.now (lent_of left.old right.old weight.old mark.old words.old starts.old ends.old rows.old) }
    ensures lent { lent_of left.new right.new weight.new mark.new words.new starts.new ends.new rows.new ≡ lent_after text.now (lent_of left.old right.old weight.old mark.old words.old starts.old ends.old rows.old) }
{
    if wrong_sizes(
        left.len(),
        right.len(),
        weight.len(),
        mark.len(),
        words.len(),
        starts.len(),
        ends.len(),
        rows.len(),
    ) {
        return Err(ReadError::at(Cause::BadLengths as u32, 0));
    }
    let mut found = [0u32; 5];
    let mut from = [0u32; NAMES];
    let mut to = [0u32; NAMES];
    let mut lefts = [0u8; ROWS];
    let mut rights = [0u8; ROWS];
    let mut weights = [0u8; WEIGHT_BYTES];
    let mut marks = [0u8; ROWS];
    let mut struck = [0u8; ROWS];
    let mut at = [0u32; ROWS];
    read_text(
        text,
        &mut found,
        &mut from,
        &mut to,
        &mut lefts,
        &mut rights,
        &mut weights,
        &mut marks,
        &mut struck,
        &mut at,
    )?;
    Ok(settle(
        found, &from, &to, &lefts, &rights, &weights, &marks, &struck, &at, left, right, weight,
        mark, words, starts, ends, rows,
    ))
}
