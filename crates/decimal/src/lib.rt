// Numbers in decimal, written into a lent column of bytes: each function takes the index at which to begin and gives the index after what it put there.
// A byte past the column's end falls away.

#![tactic(auto)]

ghost use Rattle.std.specs.Prelude.{[], ◌∷◌};
ghost use Rattle.decimal.specs.Decimal.{natural, integer};
ghost use Rattle.decimal.specs.Puts.{Puts};
ghost use Rattle.rowset.specs.Integers.{from_bits, signed};

// One byte.
pub fn put_byte(out: &mut [u8], at: usize, b: u8) -> usize
    ensures { Puts out.old at (b ∷ []) out.new result }
{
    if at < out.len() {
        out[at] = b;
        return at + 1;
    }
    out.len()
}

// The bytes of a text.
pub fn put_text(out: &mut [u8], at: usize, text: &[u8]) -> usize
    ensures { Puts out.old at text.now out.new result }
{
    let mut next = at.min(out.len());
    for b in text {
        next = put_byte(out, next, *b);
    }
    next
}

// A natural: the digits of its tenth, where it has more than one, and after them its last digit.
pub fn put_natural(out: &mut [u8], at: usize, x: u64) -> usize
    ensures { Puts out.old at (natural x) out.new result }
{
    let last = b'0' + (x % 10) as u8;
    if x < 10 {
        return put_byte(out, at, last);
    }
    let next = put_natural(out, at, x / 10);
    put_byte(out, next, last)
}

// The integer that 64 bits stand for in two's complement, with - before a negative one.
pub fn put_integer(out: &mut [u8], at: usize, bits: u64) -> usize
    ensures { Puts out.old at (integer (from_bits 64 bits)) out.new result }
{
    let value = bits.cast_signed();
    if value >= 0 {
        return put_natural(out, at, bits);
    }
    let next = put_byte(out, at, b'-');
    put_natural(out, next, value.unsigned_abs())
}

// The integer that 32 bits stand for.
pub fn put_price(out: &mut [u8], at: usize, bits: u32) -> usize
    ensures { Puts out.old at (integer (signed bits)) out.new result }
{
    let value = i64::from(bits.cast_signed());
    put_integer(out, at, value.cast_unsigned())
}
