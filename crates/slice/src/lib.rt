// Slices of 1,024 components, numbered from 1 at the top: the machine's CLR, SET, FND, STEP, SOME, ZERO, and the operations and, or, xor and not.
// A component outside 1 to 1,024 reads 0, and writing it changes nothing.

#![tactic(auto)]

ghost use Rattle.std.specs.Prelude.{◌≡◌, not};
ghost use Rattle.rowset.specs.Sets.{empty, up_to, both, either, one_of, without, take_out, any, uppermost};
ghost use Rattle.slice.specs.Slices.{size, component, written};

use std::array;

pub mod difference; // difference.rt: one slice without another
pub mod rows; // rows.rt: the rows of a table
pub mod words; // words.rt: a slice that is lent as words

// The number of components of a slice, of the words that hold them, and of the components in a word.
pub const SIZE: usize = 1024;

pub const WORDS: usize = 16;

pub const BITS: usize = 64;

// Sixteen words of 64 bits: component i is bit (i - 1) % 64 of word (i - 1) / 64. What a slice means is its components: contracts speak of these, and of words only where words are lent.
#[derive(Clone, Copy)]
pub struct Slice {
    pub words: [u64; WORDS],
}

// What STEP gives: the position of the uppermost 1, and the slice without it.
#[derive(Clone, Copy)]
pub struct Stepped {
    pub at: usize,
    pub slice: Slice,
}

impl Slice {
    // The empty slice Θ and the full slice.
    pub const EMPTY: Slice = Slice { words: [0; WORDS] };

    pub const FULL: Slice = Slice {
        words: [u64::MAX; WORDS],
    };

    pub fn empty() -> Slice
        ensures { component result ≡ empty }
    {
        Slice::EMPTY
    }

    pub fn full() -> Slice
        ensures { component result ≡ up_to size }
    {
        Slice::FULL
    }
}

// CLR: the slice of zeros.
pub fn clr() -> Slice
    ensures { component result ≡ empty }
{
    Slice::empty()
}

// SET: the slice of ones.
pub fn set() -> Slice
    ensures { component result ≡ up_to size }
{
    Slice::full()
}

// Component i of x.
pub fn get(x: Slice, i: usize) -> bool
    ensures { result ≡ component x i }
{
    if i < 1 || SIZE < i {
        return false;
    }
    let k = i - 1;
    (x.words[k / BITS] >> (k % BITS)) % 2 == 1
}

// x with b written at component i.
pub fn put(x: Slice, i: usize, b: bool) -> Slice
    ensures { component result ≡ written (component x) i b }
{
    let mut r = x;
    words::write_row(&mut r.words, i, b);
    r
}

// The components that both slices have.
pub fn and(x: Slice, y: Slice) -> Slice
    ensures { component result ≡ both (component x) (component y) }
{
    Slice {
        words: array::from_fn(|k| x.words[k] & y.words[k]),
    }
}

// The components that either slice has.
pub fn or(x: Slice, y: Slice) -> Slice
    ensures { component result ≡ either (component x) (component y) }
{
    Slice {
        words: array::from_fn(|k| x.words[k] | y.words[k]),
    }
}

// The components that exactly one of the slices has.
pub fn xor(x: Slice, y: Slice) -> Slice
    ensures { component result ≡ one_of (component x) (component y) }
{
    Slice {
        words: array::from_fn(|k| x.words[k] ^ y.words[k]),
    }
}

// The components that x does not have.
pub fn not(x: Slice) -> Slice
    ensures { component result ≡ without (up_to size) (component x) }
{
    xor(x, Slice::full())
}

// FND: the position of the uppermost 1, 0 where there is none.
pub fn fnd(x: Slice) -> usize
    ensures { result ≡ uppermost size (component x) }
{
    for (k, w) in x.words.iter().enumerate() {
        if *w != 0 {
            return BITS * k + w.trailing_zeros() as usize + 1;
        }
    }
    0
}

// SOME: whether x has a component 1. All words are joined, and no branch depends on one of them.
pub fn some(x: Slice) -> bool
    ensures { result ≡ any size (component x) }
{
    let mut joined = 0;
    for w in &x.words {
        joined |= w;
    }
    joined != 0
}

// ZERO: whether x is Θ.
pub fn zero(x: Slice) -> bool
    ensures { result ≡ not (any size (component x)) }
{
    !some(x)
}

// STEP by value: the position of the uppermost 1, 0 for Θ, and the slice with that component cleared.
pub fn step_value(x: Slice) -> Stepped
    ensures at { result.at ≡ uppermost size (component x) }
    ensures slice { component result.slice ≡ take_out (component x) (uppermost size (component x)) }
{
    let at = fnd(x);
    Stepped {
        at,
        slice: put(x, at, false),
    }
}

// STEP: the position of the uppermost 1, 0 for Θ; that component of the caller's slice is cleared.
pub fn step(x: &mut Slice) -> usize
    ensures { (result ≡ uppermost size (component x.old))
        × (component x.new ≡ take_out (component x.old) (uppermost size (component x.old))) }
{
    let s = step_value(*x);
    *x = s.slice;
    s.at
}
