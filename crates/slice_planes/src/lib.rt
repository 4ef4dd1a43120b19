// Bytes split into bit planes: eight slices, of which plane k holds bit k of each row's byte. This is how a column of bytes becomes columns of bits.
// The bytes of eight rows go into one word, a block. The bits k of its bytes are then taken out together, so that eight blocks give 64 components.

#![tactic(auto)]

ghost use Rattle.std.specs.Prelude.{◌≡◌, ℕ, ◌+◌, ◌<◌, ◌*◌, ◌%◌, ◌^◌, get_or, []};
ghost use Rattle.slice_planes.specs.Planes.{plane, bit_plane};
ghost use Rattle.slice_planes.specs.Steps.Blocks.{block_of, word_of};

use slice::{BITS, Slice, WORDS};
use std::array;

// Plane k stands at index k.
#[derive(Clone, Copy)]
pub struct Planes {
    pub planes: [Slice; 8],
}

// The lowest bit of each byte of a word.
const LOWEST: u64 = 0x0101010101010101;

// The byte at an index, 0 past the end.
fn byte_at(column: &[u8], at: usize) -> u8
    ensures { result ≡ get_or column.now at 0 }
{
    column.get(at).copied().unwrap_or(0)
}

// The bytes of row `first` and of every eighth row after it, eight in all.
fn block(column: &[u8], stride: usize, offset: usize, first: usize) -> u64
    requires { (stride < 2 ^ 32) × (offset < 2 ^ 32) × (first < 1024) }
    ensures { result ≡ block_of column.now stride offset first }
{
    let mut block: u64 = 0;
    for l in (0..8).rev() {
        block = block * 256 + u64::from(byte_at(column, offset + stride * (first + 8 * l)));
    }
    block
}

// The blocks of 64 rows: byte l of block g is that of row 64 q + 8 l + g, rows counted from 0.
fn gather(column: &[u8], stride: usize, offset: usize, q: usize) -> [u64; 8]
    requires { (stride < 2 ^ 32) × (offset < 2 ^ 32) × (q < 16) }
    ensures { (g : ℕ) → g < 8 → get_or result g 0 ≡ block_of column.now stride offset (64 * q + g) }
{
    array::from_fn(|g| block(column, stride, offset, BITS * q + g))
}

// The bits k of the bytes of eight blocks, for k of 0 to 7; any other k is taken modulo 8.
pub fn word(blocks: &[u64; 8], k: usize) -> u64
    ensures { result ≡ word_of blocks.now (k % 8) 0 }
{
    let k = k % 8;
    let mut word: u64 = 0;
    for g in (0..8).rev() {
        word = word * 2 + ((blocks[g] >> k) & LOWEST);
    }
    word
}

// Plane k, word by word.
fn plane(blocks: &[[u64; 8]; WORDS], k: usize) -> Slice
    requires { k < 8 }
    ensures { (q : ℕ) → q < 16 → get_or result.words q 0 ≡ word_of (get_or blocks.now q []) k 0 }
{
    Slice {
        words: array::from_fn(|q| word(&blocks[q], k)),
    }
}

// The bytes of the column, `stride` apart and the first at `offset`, as eight planes: component i of plane k is bit k of the byte at index
// offset + stride (i - 1), and 0 where the column has ended.
pub fn split(column: &[u8], stride: u32, offset: u32) -> Planes
    ensures { plane result ≡ bit_plane column.now stride offset }
{
    let mut blocks = [[0u64; 8]; WORDS];
    for q in 0..WORDS {
        blocks[q] = gather(column, stride as usize, offset as usize, q);
    }
    Planes {
        planes: array::from_fn(|k| plane(&blocks, k)),
    }
}
