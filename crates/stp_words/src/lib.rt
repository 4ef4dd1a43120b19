// The words of an STP text: a byte's class, the next word of a text, the names that a word may be, and the number or the price that it is.

#![tactic(auto)]

ghost use Rattle.std.specs.Prelude.{◌≡◌, ◌≤◌, not, drop, length, IfSome};
ghost use Rattle.std.specs.List.{position_or_len};
ghost use Rattle.stp_words.specs.Bytes.{class_of, of_words};
ghost use Rattle.stp_words.specs.Names.{same};
ghost use Rattle.stp_words.specs.Numbers.{digits_to, number_of, price_of};
ghost use Rattle.stp_words.specs.Answers.{number_in, price_in};
ghost use Rattle.stp_words.specs.Spans.{first_after, gap_from, end_from, span_of};

// What a byte is.
#[derive(Clone, Copy)]
pub enum Class {
    Digit,
    Letter,
    Blank,
    LineEnd,
    Other,
}

// A word of a text: its first byte's place, the place after its last byte, and whether it is the first word of its line.
#[derive(Clone, Copy)]
pub struct Span {
    pub from: usize,
    pub to: usize,
    pub first: bool,
}

// Where a word begins, and whether it is the first of its line.
#[derive(Clone, Copy)]
struct Start {
    at: usize,
    first: bool,
}

// The largest price, and the number that follows - in the least price.
const MAX_PRICE: u32 = 2147483647;

const MAX_BELOW: u32 = 2147483648;

// A byte's class: digits, letters, blanks (space, tab), line ends (LF, CR), and the rest.
pub fn class_of(b: u8) -> Class
    ensures { result ≡ class_of b }
{
    match b {
        b'0'..=b'9' => Class::Digit,
        b'A'..=b'Z' | b'a'..=b'z' => Class::Letter,
        b'\t' | b' ' => Class::Blank,
        b'\n' | b'\r' => Class::LineEnd,
        _ => Class::Other,
    }
}

// Whether a byte of the class belongs to words.
fn of_words(c: Class) -> bool
    ensures { result ≡ of_words c }
{
    match c {
        Class::Blank | Class::LineEnd => false,
        _ => true,
    }
}

// Whether no word of the line stands before the next byte, where `first` says it of this one, a blank or a line end of the class.
fn first_after(c: Class, first: bool) -> bool
    ensures { result ≡ first_after c first }
{
    match c {
        Class::LineEnd => true,
        _ => first,
    }
}

// The first byte of the next word at or after a place of the text, past blanks and line ends; the text's length where no word is left.
fn word_start(text: &[u8], at: usize, mut first: bool) -> Start
    requires { at ≤ length text.now }
    ensures value { result ≡ gap_from at first (drop at text.now) }
    ensures bound { result.at ≤ length text.now }
{
    for i in at..text.len() {
        let c = class_of(text[i]);
        if of_words(c) {
            return Start { at: i, first };
        }
        first = first_after(c, first);
    }
    Start {
        at: text.len(),
        first,
    }
}

// The first blank or line end; the number of bytes where there is none.
fn word_length(text: &[u8]) -> usize
    ensures value { result ≡ position_or_len (λ b. not (of_words (class_of b))) text.now }
    ensures bound { result ≤ length text.now }
{
    let end = text.iter().position(|b| !of_words(class_of(*b)));
    end.unwrap_or(text.len())
}

// The next word at or after a place; `first` says that no word of the current line stands before that place.
// Where no word is left, it begins and ends at the text's length.
pub fn next_word(text: &[u8], at: usize, first: bool) -> Span
    ensures { result ≡ span_of text.now at first }
{
    let start = word_start(text, at.min(text.len()), first);
    Span {
        from: start.at,
        to: start.at + word_length(&text[start.at..]),
        first: start.first,
    }
}

// Whether a word is a name, letters in either case.
pub fn same(word: &[u8], name: &[u8]) -> bool
    ensures { result ≡ same word.now name.now }
{
    word.eq_ignore_ascii_case(name)
}

// The number that the bytes of a word are, if they are digits alone, at least one, and it is not above `most`.
// The value only grows, so that reading may end as soon as it is too large.
fn digits_to(word: &[u8], most: u32) -> Option<u32>
    ensures value { number_in result ≡ digits_to most word.now }
    ensures bound { IfSome result (λ v. v ≤ most) }
{
    if word.is_empty() {
        return None;
    }
    let mut v: u64 = 0;
    for b in word {
        if !b.is_ascii_digit() {
            return None;
        }
        v = 10 * v + u64::from(*b - b'0');
        if u64::from(most) < v {
            return None;
        }
    }
    Some(v as u32)
}

// The number that a word is: digits, at least one, to 4,294,967,295.
pub fn number_of(word: &[u8]) -> Option<u32>
    ensures { number_in result ≡ number_of word.now }
{
    digits_to(word, u32::MAX)
}

// The price that a word is: digits, after an optional -, from -2,147,483,648 to 2,147,483,647.
pub fn price_of(word: &[u8]) -> Option<i32>
    ensures { price_in result ≡ price_of word.now }
{
    match word.strip_prefix(b"-") {
        Some(digits) => {
            let v = digits_to(digits, MAX_BELOW)?;
            Some(-i64::from(v) as i32)
        }
        None => {
            let v = digits_to(word, MAX_PRICE)?;
            Some(v as i32)
        }
    }
}
