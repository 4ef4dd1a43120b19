// The reader of a SteinLib STP text: its words, one after the other, become the columns of a table, or the place where the layout is broken.

#![tactic(auto, unfolding(crate::specs::Readings::read_of, crate::specs::Readings::stand_of, crate::specs::Readings::next_of, stp_spec::specs::Reader::next, stp_spec::specs::Reader::next_section, stp_spec::specs::Reader::named, stp_spec::specs::Reader::skip_line, stp_spec::specs::Reader::graph_line, stp_spec::specs::Reader::end_of, stp_spec::specs::Reader::when, stp_spec::specs::Reader::nothing_read, stp_spec::specs::Reader::with_graph, stp_spec::specs::Reader::with_nodes, stp_spec::specs::Reader::with_edges, stp_spec::specs::Reader::price_then, stp_words::specs::Answers::number_in, stp_words::specs::Answers::price_in, stp_spec::specs::Reader::number_then, stp_spec::specs::Reader::counted, stp_words::specs::Names::is, stp_words::specs::Bytes::bytes,))]

ghost use Rattle.std.specs.Prelude.{◌≡◌, ◌+◌, ◌*◌, ◌≤◌, ◌<◌, true, false, cond, ◌&&◌, ◌∷◌, [], ◌++◌, length, take, drop, IfOk, IfErr};
ghost use Rattle.rowset.specs.Integers.{to_bits};
ghost use Rattle.star_spec.specs.Door.{bytes_of};
ghost use Rattle.stp_spec.specs.Import.{max_text, read_text};
ghost use Rattle.stp_spec.specs.Reader.{Read, nothing_read, end_of, with_row, next, next_section, named, skip_line, graph_line};
ghost use Rattle.stp_words.specs.Text.{Word};
ghost use Rattle.stp_reader.specs.Readings.{Sized, Clean, read_of, stand_of, next_of, reading_of};
ghost use Rattle.stp_reader.specs.Texts.{broken_text, text_of};

use stp_words::{next_word, number_of, price_of, same};

// The longest text that is taken.
const MAX_TEXT: usize = 65536;

// The rows that a column has, and the bytes of a column of weights.
pub const ROWS: usize = 1024;

pub const WEIGHT_BYTES: usize = 4096;

// What is read so far: whether a Graph has begun, what Nodes and Edges say, the number of E lines, and the columns of their rows. Past the rows the columns are 0;
// rows past the last one of the columns are counted only.
#[derive(Clone, Copy)]
pub struct Table {
    pub graph: bool,
    pub nodes: u32,
    pub edges: u32,
    pub rows: u32,
    pub left: [u8; ROWS],
    pub right: [u8; ROWS],
    pub weight: [u8; WEIGHT_BYTES],
}

// A text that is broken: the place, and a table of which the numbers and the columns are 0.
#[derive(Clone, Copy)]
pub struct BrokenText {
    pub at: usize,
    pub table: Table,
}

// Where the reader stands after the first word of a text, as in the definition of the layout: a number or a price that comes next, for one, or the first word of a line of Graph.
#[derive(Clone, Copy)]
enum Stand {
    Heading,
    Sections,
    Naming,
    Skipping,
    Skipped,
    Ending,
    Nodes,
    NodeCount,
    Edges,
    EdgeCount,
    Lines,
    LeftEnd,
    RightEnd(u32),
    Price(u32, u32),
    Closed,
}

// An end as it is stored: 0 where it is above 255.
fn end_of(v: u32) -> u8
    ensures { result ≡ end_of v }
{
    if v <= 255 { v as u8 } else { 0 }
}

// The bytes of a row are stored from an index of a column on; past the last row nothing is.
fn store(column: &mut [u8], at: usize, bytes: &[u8])
    requires { (at < 1048576) × (length bytes.now < 1048576) }
    ensures stored { at + length bytes.now ≤ length column.old → column.new ≡ take at column.old ++ (bytes.now ++ drop (at + length bytes.now) column.old) }
    ensures kept { length column.old < at + length bytes.now → column.new ≡ column.old }
{
    let end = at + bytes.len();
    if end <= column.len() {
        column[at..end].copy_from_slice(bytes);
    }
}

// The first word of a line in a section that is skipped.
fn skip_line(word: &[u8]) -> Stand
    ensures { (w : Word) → w.letters ≡ word.now → stand_of result ≡ skip_line w }
{
    if same(word, b"END") {
        Stand::Ending
    } else {
        Stand::Skipped
    }
}

// The first word of a line of Graph after Nodes and Edges.
fn graph_line(word: &[u8]) -> Option<Stand>
    ensures { (w : Word) (r : Read) → w.letters ≡ word.now → next_of result r ≡ graph_line r w }
{
    if same(word, b"E") {
        return Some(Stand::LeftEnd);
    }
    if same(word, b"END") {
        return Some(Stand::Sections);
    }
    None
}

impl Table {
    // Nothing is read.
    fn new() -> Table
        ensures reads { (read_of result ≡ nothing_read) × (result.rows ≡ 0) }
        ensures clean { Clean result }
    {
        Table {
            graph: false,
            nodes: 0,
            edges: 0,
            rows: 0,
            left: [0; ROWS],
            right: [0; ROWS],
            weight: [0; WEIGHT_BYTES],
        }
    }

    // One row more.
    fn add_row(&mut self, left: u32, right: u32, price: i32)
        requires few { self.old.rows < 65536 }
        requires clean { Clean self.old }
        ensures row { read_of self.new ≡ with_row (read_of self.old) left right (to_bits 32 price) }
        ensures count { self.new.rows ≡ self.old.rows + 1 }
        ensures clean { Clean self.new }
    {
        let row = self.rows as usize;
        store(&mut self.left, row, &[end_of(left)]);
        store(&mut self.right, row, &[end_of(right)]);
        store(
            &mut self.weight,
            4 * row,
            &price.cast_unsigned().to_le_bytes(),
        );
        self.rows += 1;
    }

    // The first word of a line between sections: SECTION, or EOF once a Graph has been read.
    fn next_section(&self, word: &[u8]) -> Option<Stand>
        ensures { (w : Word) → w.letters ≡ word.now → next_of result (read_of self.now) ≡ next_section (read_of self.now) w }
    {
        if same(word, b"SECTION") {
            return Some(Stand::Naming);
        }
        if self.graph && same(word, b"EOF") {
            return Some(Stand::Closed);
        }
        None
    }

    // The name of a section, of which one alone is Graph.
    fn named(&mut self, word: &[u8]) -> Option<Stand>
        requires clean { Clean self.old }
        ensures leads { (w : Word) → w.letters ≡ word.now → next_of result (read_of self.new) ≡ named (read_of self.old) w }
        ensures count { self.new.rows ≡ self.old.rows }
        ensures clean { Clean self.new }
    {
        if !same(word, b"Graph") {
            return Some(Stand::Skipping);
        }
        if self.graph {
            return None;
        }
        self.graph = true;
        Some(Stand::Nodes)
    }

    // Where the reader stands after the first word of a line, if the word can stand.
    fn next_line(&self, stand: Stand, word: &[u8]) -> Option<Stand>
        ensures { (w : Word) → w.first ≡ true → w.letters ≡ word.now → next_of result (read_of self.now) ≡ next (stand_of stand) (read_of self.now) w }
    {
        match stand {
            Stand::Heading | Stand::Sections | Stand::Ending => self.next_section(word),
            Stand::Skipping | Stand::Skipped => Some(skip_line(word)),
            Stand::Nodes => same(word, b"Nodes").then_some(Stand::NodeCount),
            Stand::Edges => same(word, b"Edges").then_some(Stand::EdgeCount),
            Stand::Lines => graph_line(word),
            _ => None,
        }
    }

    // Where the reader stands after a later word of a line, if the word can stand; the table then has what the word says.
    fn next_in_line(&mut self, stand: Stand, word: &[u8]) -> Option<Stand>
        requires few { self.old.rows < 65536 }
        requires clean { Clean self.old }
        ensures leads { (w : Word) → w.first ≡ false → w.letters ≡ word.now → next_of result (read_of self.new) ≡ next (stand_of stand) (read_of self.old) w }
        ensures count { self.new.rows ≤ self.old.rows + 1 }
        ensures clean { Clean self.new }
    {
        match stand {
            Stand::Heading => Some(Stand::Heading),
            Stand::Naming => self.named(word),
            Stand::Skipped | Stand::Ending => Some(Stand::Skipped),
            Stand::NodeCount => {
                self.nodes = number_of(word)?;
                Some(Stand::Edges)
            }
            Stand::EdgeCount => {
                self.edges = number_of(word)?;
                Some(Stand::Lines)
            }
            Stand::LeftEnd => {
                let left = number_of(word)?;
                Some(Stand::RightEnd(left))
            }
            Stand::RightEnd(left) => {
                let right = number_of(word)?;
                Some(Stand::Price(left, right))
            }
            Stand::Price(left, right) => {
                let price = price_of(word)?;
                self.add_row(left, right, price);
                Some(Stand::Lines)
            }
            _ => None,
        }
    }

    // Where the reader stands after a word, if the word can stand.
    fn next(&mut self, stand: Stand, first: bool, word: &[u8]) -> Option<Stand>
        requires few { self.old.rows < 65536 }
        requires clean { Clean self.old }
        ensures leads { (w : Word) → w.first ≡ first → w.letters ≡ word.now → next_of result (read_of self.new) ≡ next (stand_of stand) (read_of self.old) w }
        ensures count { self.new.rows ≤ self.old.rows + 1 }
        ensures clean { Clean self.new }
    {
        if first {
            self.next_line(stand, word)
        } else {
            self.next_in_line(stand, word)
        }
    }
}

impl BrokenText {
    // Nothing is kept of what was read before the place.
    fn new(at: usize) -> BrokenText
        ensures { result ≡ broken_text at }
    {
        BrokenText {
            at,
            table: Table::new(),
        }
    }
}

// The whole text: the numbers and rows that it holds, with zeros past them; a broken text has its place and zeros alone.
pub fn read(text: &[u8]) -> Result<Table, BrokenText>
    ensures value { result ≡ text_of (read_text text.now) }
    ensures kept { read_text text.now ≡ reading_of result }
    ensures place { IfErr result (λ b. b.at ≤ max_text) }
    ensures sized { IfOk result (λ t. Sized t.left t.right t.weight) }
    ensures zeros { IfErr result (λ b. Sized b.table.left b.table.right b.table.weight) }
{
    if MAX_TEXT < text.len() {
        return Err(BrokenText::new(MAX_TEXT));
    }
    let opening = next_word(text, 0, true);
    if !same(&text[opening.from..opening.to], b"33D32945") {
        return Err(BrokenText::new(opening.from));
    }
    let mut table = Table::new();
    let mut stand = Stand::Heading;
    let mut word = next_word(text, opening.to, false);
    while word.from < word.to {
        let Some(after) = table.next(stand, word.first, &text[word.from..word.to]) else {
            return Err(BrokenText::new(word.from));
        };
        stand = after;
        word = next_word(text, word.to, false);
    }
    match stand {
        Stand::Closed => Ok(table),
        _ => Err(BrokenText::new(text.len())),
    }
}
