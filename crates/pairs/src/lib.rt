// A set of pairs of bytes as lent words of 64 bits. The pair of a and b, in either order, is bit k % 64 of word k / 64, where k is 256 times the smaller byte and the larger one.
// 1,024 words hold every pair; a pair whose word is not there is not in the set, and putting it in changes nothing.

#![tactic(auto)]

ghost use Rattle.std.specs.Prelude.{◌≡◌};
ghost use Rattle.pairs.specs.Pairs.{pair_at, has_pair, with_pair};

// The words that hold every pair, the bits of a word, and the number of bytes.
pub const WORDS: usize = 1024;

const BITS: usize = 64;

const BYTES: usize = 256;

// The place of the pair of a and b among the bits.
fn pair_at(a: u8, b: u8) -> usize
    ensures { result ≡ pair_at a b }
{
    BYTES * usize::from(a.min(b)) + usize::from(a.max(b))
}

// Puts the pair of a and b in, and says whether it was in before.
pub fn put(words: &mut [u64], a: u8, b: u8) -> bool
    ensures before { result ≡ has_pair words.old a b }
    ensures after { words.new ≡ with_pair words.old a b }
{
    let k = pair_at(a, b);
    let at = k / BITS;
    if words.len() <= at {
        return false;
    }
    let w = words[at];
    words[at] |= 1 << (k % BITS);
    (w >> (k % BITS)) % 2 == 1
}
