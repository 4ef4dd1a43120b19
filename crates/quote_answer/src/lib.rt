// The answer of a quote: twenty-four bytes, of which the first sixteen are those of every door, with the least total before, and the last eight the
// least total after. Other doors write two totals by it too.

#![tactic(auto)]

ghost use Rattle.std.specs.Prelude.{cond, ◌++◌, ◌≡◌};
ghost use Rattle.answer.specs.Records.{fields_of};
ghost use Rattle.quote.specs.Answers.{answer_of};
ghost use Rattle.price_spec.specs.Door.{quote_fields, after_of, lent_quote};
ghost use Rattle.rowset.specs.Integers.{from_bits, to_bits};
ghost use Rattle.star_spec.specs.Door.{bytes_of, field_bytes};

use answer::{Record, bytes_of, of_refusal};
use quote::Totals;
use refusal::Refusal;

// The length of a quote's answer.
pub const LENGTH: usize = 24;

// The fields of a quote: those of every door, and the 64 bits of the least total after.
#[derive(Clone, Copy)]
pub struct QuoteRecord {
    pub first: Record,
    pub after: u64,
}

// The fields of what was quoted.
pub fn of_quoted(quoted: Result<Totals, Refusal>) -> QuoteRecord
    ensures first { fields_of result.first ≡ quote_fields (answer_of quoted) }
    ensures after { from_bits 64 result.after ≡ after_of (answer_of quoted) }
{
    match quoted {
        Ok(totals) => QuoteRecord {
            first: Record {
                kind: 1,
                number: 0,
                out: 0,
                into: 0,
                only: 0,
                amount: totals.before,
            },
            after: totals.after,
        },
        Err(refusal) => QuoteRecord {
            first: of_refusal(refusal),
            after: 0,
        },
    }
}

// The twenty-four bytes: the sixteen of the record, and the eight of the total after, which stand where a record has its amount.
fn quote_bytes(x: QuoteRecord) -> [u8; LENGTH]
    ensures { result ≡ field_bytes (fields_of x.first) ++ bytes_of 8 (to_bits 64 (from_bits 64 x.after)) }
{
    let after = x.after;
    let head = bytes_of(x.first);
    let tail = bytes_of(Record {
        kind: 0,
        number: 0,
        out: 0,
        into: 0,
        only: 0,
        amount: after,
    });
    [
        head[0], head[1], head[2], head[3], head[4], head[5], head[6], head[7], head[8], head[9],
        head[10], head[11], head[12], head[13], head[14], head[15], tail[8], tail[9], tail[10],
        tail[11], tail[12], tail[13], tail[14], tail[15],
    ]
}

// Writes the twenty-four bytes where the lent answer has as many; else nothing.
pub fn write_quote(answer: &mut [u8], x: QuoteRecord)
    ensures { answer.new ≡ cond (lent_quote answer.old) (field_bytes (fields_of x.first) ++ bytes_of 8 (to_bits 64 (from_bits 64 x.after))) answer.old }
{
    if answer.len() != LENGTH {
        return;
    }
    answer.copy_from_slice(&quote_bytes(x));
}
