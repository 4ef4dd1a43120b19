// Between the bytes of a claim and slices of rows: the rows that a claim marks, the claim that marks a slice's rows, and the weight of a slice's rows, an integer, in the 64 bits that stand for it.

#![tactic(auto)]

ghost use Rattle.std.specs.Prelude.{◌≡◌, ℕ, ◌+◌, ◌*◌, ◌<◌, ◌≤◌, Bool, length};
ghost use Rattle.rowset.specs.Bytes.{in_row};
ghost use Rattle.rowset.specs.Integers.{from_bits, signed, total};
ghost use Rattle.rowset.specs.Sets.{both};
ghost use Rattle.rowset.specs.Words.{word_at};
ghost use Rattle.rowset.specs.Steps.Flipped.{flipped};
ghost use Rattle.slice.specs.Slices.{size, bit, component};
ghost use Rattle.star_spec.specs.Call.{marked, claim_of};
ghost use Rattle.claim.specs.Claims.{claim_rows};
ghost use Rattle.claim.specs.Steps.Added.{Added};

use slice::Slice;
use table_checks::row_weight;

// 2 ^ 31: the first of 32 bits.
const OFFSET: u32 = 2147483648;

// The word of a claim's bytes from index `first` on: bit j is 1 where row `first` + j + 1 is marked.
fn mark_word(mark: &[u8], first: usize) -> u64
    requires { (first ≤ 960) × (first < length mark.now) }
    ensures { result ≡ word_at (marked mark.now) first 64 }
{
    let end = mark.len().min(first + 64);
    let mut word: u64 = 0;
    for i in (first..end).rev() {
        word = word * 2 + (mark[i] == 1) as u64;
    }
    word
}

// The rows that the claim marks; none where it has more than 1,024 bytes.
fn mark_rows(mark: &[u8]) -> Slice
    ensures { component result ≡ claim_rows mark.now }
{
    if slice::SIZE < mark.len() {
        return Slice::empty();
    }
    let mut r = Slice::EMPTY;
    for k in 0..mark.len().div_ceil(64) {
        r.words[k] = mark_word(mark, 64 * k);
    }
    r
}

// The rows of a slice that the claim marks.
pub fn claim_rows(mark: &[u8], rows: Slice) -> Slice
    ensures { component result ≡ both (component rows) (claim_rows mark.now) }
{
    slice::and(rows, mark_rows(mark))
}

// The claim is written anew: 1 for each row of the slice, 0 for every other. The slice is lent as words, so that it is not copied for each row.
pub fn write_claim(mark: &mut [u8], rows: Slice)
    ensures { mark.new ≡ claim_of (length mark.old) (component rows) }
{
    for i in 0..mark.len() {
        mark[i] = slice_words::row_in(&rows.words, i + 1) as u8;
    }
}

// The number of row i's 32 bits with the first one turned over, which is 2 ^ 31 more than the row's weight.
pub fn flipped_weight(weight: &[u8], i: usize) -> u32
    ensures { result ≡ flipped (in_row 4 weight.now i) }
{
    std::num::wrapping_add_u32(row_weight(weight, i), OFFSET)
}

// The sum of flipped weights, and 2 ^ 31 for each row added.
#[derive(Clone, Copy)]
struct Sums {
    above: u64,
    taken: u64,
}

// The sums with the rows of word k of a slice, w, one turn of the loop for each of them.
fn add_word(weight: &[u8], w: u64, k: usize, before: Sums) -> Sums
    requires { (k < 16) × (before.above ≤ 64 * k * 4294967295) × (before.taken ≤ 64 * k * 2147483648) }
    ensures { (p : ℕ → Bool) → ((j : ℕ) → j < 64 → p (64 * k + j + 1) ≡ bit w j) → Added weight.now p (64 * k) before.above before.taken → Added weight.now p (64 * k + 64) result.above result.taken }
{
    let mut above = before.above;
    let mut taken = before.taken;
    let mut at = 64 * k;
    let mut left = w;
    while left != 0 {
        let z = left.trailing_zeros() as usize;
        at = at + z + 1;
        above += flipped_weight(weight, at) as u64;
        taken += OFFSET as u64;
        left = (left >> z) >> 1;
    }
    Sums { above, taken }
}

// The 64 bits of the sum of the weights of the slice's rows; a byte past the column's end counts 0. The flipped weights are added up, and 2 ^ 31 taken off for each row.
pub fn weigh(weight: &[u8], rows: Slice) -> u64
    ensures { from_bits 64 result ≡ total size (λ i. signed (in_row 4 weight.now i)) (component rows) }
{
    let mut sums = Sums { above: 0, taken: 0 };
    for k in 0..slice::WORDS {
        sums = add_word(weight, rows.words[k], k, sums);
    }
    std::num::wrapping_sub_u64(sums.above, sums.taken)
}
