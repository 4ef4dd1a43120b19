// A claim carried through the numbers that MERGE and adding fill: each byte to its row's new position, 0 elsewhere.
ghost use Rattle.std.specs.Prelude.{length, [], ◌∷◌, ◌≡◌};
ghost use Rattle.refusal.specs.Outcomes.{refusal_of};
ghost use Rattle.star_spec.specs.Refusals.{max_rows};
ghost use Rattle.change_spec.specs.Carrying.{brought_to, wrong_carry, carry_refusal, carried_marks};

use refusal::{Cause, Refusal};
use slice::SIZE;

// Whether the numbers or the claim have another length than they should.
fn wrong_lengths(numbers: usize, claim: usize) -> bool
    ensures { result ≡ wrong_carry numbers claim }
{
    numbers != SIZE || claim != SIZE
}

// A byte is put at the position that a row's number names: none where it is 0 or past the column.
fn put_byte(column: &mut [u8], number: u32, byte: u8)
    ensures { column.new ≡ brought_to (number ∷ []) (byte ∷ []) column.old }
{
    if number > 0 {
        let k = number as usize - 1;
        if k < column.len() {
            column[k] = byte;
        }
    }
}

// The bytes of a claim are put at their rows' numbers, from the last row up.
fn bring(column: &mut [u8], numbers: &[u32], claim: &[u8])
    requires { (length numbers.now ≡ max_rows) × (length claim.now ≡ max_rows) }
    ensures { column.new ≡ brought_to numbers.now claim.now column.old }
{
    for i in (0..SIZE).rev() {
        put_byte(column, numbers[i], claim[i]);
    }
}

// A claim of 1,024 bytes is carried through 1,024 numbers. Refused 3 where either has another length.
pub fn carry(numbers: &[u32], mark: &mut [u8]) -> Result<(), Refusal>
    ensures answer { refusal_of result ≡ carry_refusal numbers.now mark.old }
    ensures marks { mark.new ≡ carried_marks numbers.now mark.old }
{
    if wrong_lengths(numbers.len(), mark.len()) {
        return Err(Refusal::of(Cause::BadLengths as u32));
    }
    let mut claim = [0u8; SIZE];
    claim.copy_from_slice(mark);
    mark.fill(0);
    bring(mark, numbers, &claim);
    Ok(())
}
