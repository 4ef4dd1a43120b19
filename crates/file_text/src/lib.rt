// The bytes of a table file: names compared and looked up among those met so far, and the pieces of a line.

#![tactic(auto)]

ghost use Rattle.std.specs.Prelude.{◌≡◌, ℕ, ◌+◌, ◌≤◌, ◌<◌, min, max, length, take, drop, set, cond, List};
ghost use Rattle.file_spec.specs.Names.{equal, position, met, met_at};
ghost use Rattle.file_spec.specs.Pieces.{ends_line, is_blank, is_byte, first_at, before, front_trimmed, back_trimmed, trimmed, content, separator, field, fields, fields_by, Piece};
ghost use Rattle.file_text.specs.Steps.Spans.{part, piece_at, names_of, Within, FieldsRead};
ghost use Rattle.file_text.specs.Steps.Collected.{Collected, added};

// The names that a table can have.
pub const NAMES: usize = 255;

// Whether two parts have the same bytes. The last byte is looked at first: many names of a table differ in it alone.
pub fn equal(a: &[u8], b: &[u8]) -> bool
    ensures { result ≡ equal a.now b.now }
{
    let n = a.len();
    if n != b.len() {
        return false;
    }
    if n > 0 && a[n - 1] != b[n - 1] {
        return false;
    }
    a == b
}

// The position of a name among the first `count` of the names met so far, which are kept by their places in the text; `count` where it is new.
fn find_name(
    text: &[u8],
    starts: &[u32; NAMES],
    ends: &[u32; NAMES],
    count: usize,
    from: usize,
    to: usize,
) -> usize
    requires count_bound { (count ≤ 255) × (from ≤ to) × (to ≤ length text.now) }
    requires sized { (length starts.now ≡ 255) × (length ends.now ≡ 255) }
    requires kept { Within text.now starts.now ends.now count }
    ensures value { result ≡ position (part text.now from to) (names_of text.now starts.now ends.now count) }
    ensures bounded { result ≤ count }
{
    for k in 0..count {
        if equal(&text[from..to], &text[starts[k] as usize..ends[k] as usize]) {
            return k;
        }
    }
    count
}

// A part of a text: the place of its first byte, and the place after its last.
#[derive(Clone, Copy)]
pub struct Part {
    pub from: usize,
    pub to: usize,
}

// The fields of a line that are kept.
pub const FIELDS: usize = 5;

// The fields of a line: how many were seen, how many of them there are without the empty ones at the end, and where the first five stand.
#[derive(Clone, Copy)]
pub struct Fields {
    pub seen: usize,
    pub count: usize,
    pub parts: [Part; FIELDS],
}

// Whether a byte is a blank.
#[tactic(auto, unfolding(file_spec::specs::Pieces::is_blank))]
pub fn is_blank(b: u8) -> bool
    ensures { result ≡ is_blank b }
{
    b == 32 || b == 9
}

#[tactic(auto, unfolding(file_spec::specs::Pieces::ends_line))]
fn ends_line(b: u8) -> bool
    ensures { result ≡ ends_line b }
{
    b == 10 || b == 13
}

// The end of the line that a place stands in; a place past the text is its own.
pub fn line_end(text: &[u8], at: usize) -> usize
    ensures value { result ≡ first_at ends_line at (part text.now at (length text.now)) }
    ensures bounds { (at ≤ result) × (result ≤ max at (length text.now)) }
{
    for i in at..text.len() {
        if ends_line(text[i]) {
            return i;
        }
    }
    at.max(text.len())
}

// The first place of a byte in a part of the text; the part's end where it is not there.
fn find_byte(text: &[u8], from: usize, to: usize, b: u8) -> usize
    requires { (from ≤ to) × (to ≤ length text.now) }
    ensures value { result ≡ first_at (is_byte b) from (part text.now from to) }
    ensures bounds { (from ≤ result) × (result ≤ to) }
{
    for i in from..to {
        if text[i] == b {
            return i;
        }
    }
    to
}

// The end of a part without the blanks behind.
fn back(text: &[u8], from: usize, to: usize) -> usize
    requires { (from ≤ to) × (to ≤ length text.now) }
    ensures result_value { part text.now from result ≡ back_trimmed (part text.now from to) }
    ensures bounds { (from ≤ result) × (result ≤ to) }
{
    for i in (from..to).rev() {
        if !is_blank(text[i]) {
            return i + 1;
        }
    }
    from
}

// The start of a part without the blanks in front.
fn front(text: &[u8], from: usize, to: usize) -> usize
    requires { (from ≤ to) × (to ≤ length text.now) }
    ensures to_value { piece_at text.now result to ≡ front_trimmed from (part text.now from to) }
    ensures bounds { (from ≤ result) × (result ≤ to) }
{
    for i in from..to {
        if !is_blank(text[i]) {
            return i;
        }
    }
    to
}

// A part without the blanks around.
fn trim(text: &[u8], from: usize, to: usize) -> Part
    requires { (from ≤ to) × (to ≤ length text.now) }
    ensures to_value { piece_at text.now result.from result.to ≡ trimmed (piece_at text.now from to) }
    ensures bounds { (from ≤ result.from) × (result.from ≤ result.to) × (result.to ≤ to) }
{
    let e = back(text, from, to);
    let f = front(text, from, e);
    Part { from: f, to: e }
}

// The content of a line: without its comment and the blanks around.
fn content_of(text: &[u8], from: usize, to: usize) -> Part
    requires { (from ≤ to) × (to ≤ length text.now) }
    ensures to_value { piece_at text.now result.from result.to ≡ content (piece_at text.now from to) }
    ensures bounds { (from ≤ result.from) × (result.from ≤ result.to) × (result.to ≤ to) }
{
    let e = find_byte(text, from, to, 35);
    trim(text, from, e)
}

// The byte that parts the fields.
fn separator_of(text: &[u8], from: usize, to: usize) -> u8
    requires { (from ≤ to) × (to ≤ length text.now) }
    ensures { result ≡ separator (part text.now from to) }
{
    if find_byte(text, from, to, 59) < to {
        return 59;
    }
    if find_byte(text, from, to, 9) < to {
        return 9;
    }
    if find_byte(text, from, to, 44) < to {
        return 44;
    }
    32
}

// A field: without the blanks around and a pair of quotes.
fn field_of(text: &[u8], from: usize, to: usize) -> Part
    requires { (from ≤ to) × (to ≤ length text.now) }
    ensures to_value { piece_at text.now result.from result.to ≡ field (piece_at text.now from to) }
    ensures bounds { (from ≤ result.from) × (result.from ≤ result.to) × (result.to ≤ to) }
{
    let p = trim(text, from, to);
    let f = p.from;
    let e = p.to;
    if e < f + 2 {
        return p;
    }
    if text[f] != 34 {
        return p;
    }
    if text[e - 1] != 34 {
        return p;
    }
    trim(text, f + 1, e - 1)
}

// Part k of five is stored; past the last one nothing is.
fn store(parts: [Part; FIELDS], k: usize, part: Part) -> [Part; FIELDS]
    requires { length parts ≡ 5 }
    ensures { result ≡ set parts k part }
{
    let mut stored = parts;
    if k < FIELDS {
        stored[k] = part;
    }
    stored
}

// One field more; where `skip` is true, an empty one does not count.
fn put(x: Fields, part: Part, skip: bool) -> Fields
    requires seen_bound { (x.seen < 18446744073709551615) × (part.from ≤ part.to) }
    requires sized { length x.parts ≡ 5 }
    ensures by_index { (text : List ℕ) (fs : List Piece) → part.to ≤ length text → Collected text fs x → Collected text (added skip (piece_at text part.from part.to) fs) result }
    ensures counted { result.seen ≤ x.seen + 1 }
{
    let empty = part.from == part.to;
    if empty && skip {
        return x;
    }
    let seen = x.seen + 1;
    Fields {
        seen,
        count: if empty { x.count } else { seen },
        parts: store(x.parts, x.seen, part),
    }
}

// The fields of a line's content, parted by a byte.
fn collect(text: &[u8], from: usize, to: usize, sep: u8) -> Fields
    requires { (from ≤ to) × (to ≤ length text.now) }
    ensures { FieldsRead text.now (fields_by sep (piece_at text.now from to)) result.count result.parts }
{
    let mut x = no_fields();
    let mut at = from;
    loop {
        let e = find_byte(text, at, to, sep);
        x = put(x, field_of(text, at, e), sep == 32);
        if e == to {
            return x;
        }
        at = e + 1;
    }
}

// The fields of a line that lies in the text.
fn fields_in(text: &[u8], from: usize, to: usize) -> Fields
    requires { (from ≤ to) × (to ≤ length text.now) }
    ensures { FieldsRead text.now (fields (piece_at text.now from to)) result.count result.parts }
{
    let p = content_of(text, from, to);
    let sep = separator_of(text, p.from, p.to);
    collect(text, p.from, p.to, sep)
}

// The fields of nothing.
fn no_fields() -> Fields
    ensures { (result.seen ≡ 0) × (result.count ≡ 0) × (length result.parts ≡ 5) }
{
    Fields {
        seen: 0,
        count: 0,
        parts: [Part { from: 0, to: 0 }; FIELDS],
    }
}

// The fields of a line, of which what is past the text's end is not there.
pub fn fields_of(text: &[u8], from: usize, to: usize) -> Fields
    ensures { FieldsRead text.now (fields (piece_at text.now from to)) result.count result.parts }
{
    let high = to.min(text.len());
    if high < from {
        return no_fields();
    }
    fields_in(text, from, high)
}

// The position of a name among those met so far; one that is new is added after the `count` others, while there is room.
pub fn meet(
    text: &[u8],
    starts: &mut [u32; NAMES],
    ends: &mut [u32; NAMES],
    count: usize,
    from: usize,
    to: usize,
) -> usize
    requires count_bound { (count ≤ 255) × (from ≤ to) × (to ≤ length text.now) × (length text.now ≤ 16777216) }
    requires sized { (length starts.old ≡ 255) × (length ends.old ≡ 255) }
    requires kept { Within text.now starts.old ends.old count }
    ensures value { (result ≡ position (part text.now from to) (names_of text.now starts.old ends.old count)) × (result ≤ count) }
    ensures names { result < 255 → names_of text.now starts.new ends.new (max count (result + 1)) ≡ met (part text.now from to) (names_of text.now starts.old ends.old count) }
    ensures places { result < 255 → take (max count (result + 1)) starts.new ≡ met_at from (part text.now from to) (names_of text.now starts.old ends.old count) (take count starts.old) }
    ensures kept { result < 255 → Within text.now starts.new ends.new (max count (result + 1)) }
    ensures sized { (length starts.new ≡ 255) × (length ends.new ≡ 255) }
{
    let k = find_name(text, starts, ends, count, from, to);
    if k < count {
        return k;
    }
    if k < NAMES {
        starts[k] = from as u32;
        ends[k] = to as u32;
    }
    k
}
