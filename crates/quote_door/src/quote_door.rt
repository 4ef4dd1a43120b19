// The quote for C, with a lent answer of twenty-four bytes.
ghost use Rattle.std.specs.Prelude.{◌≡◌};
ghost use Rattle.in_use.specs.Tables.{table_in};
ghost use Rattle.price_spec.specs.Bytes.{QuoteCall};
ghost use Rattle.price_spec.specs.Door.{quote_returns, quote_door};
ghost use Rattle.price_spec.specs.Quote.{asked, asked_work};

use in_use::InUse;
use quote_answer::{LENGTH, of_quoted, write_quote};

// The quote over a table of either kind, in the lent answer.
fn answered(
    n: u32,
    table: InUse,
    left: &[u8],
    right: &[u8],
    weight: &[u8],
    row: u32,
    price: u32,
    answer: &mut [u8],
) -> u32
    ensures returned { result ≡ quote_returns answer.old }
    ensures answered { let c = table_in n table left.now right.now weight.now left.now in
        answer.new ≡ quote_door c row price answer.old }
    ensures means { let c = table_in n table left.now right.now weight.now left.now in
        QuoteCall c row price answer.old answer.new result }
{
    if answer.len() != LENGTH {
        return 0;
    }
    let q = quote::quote(n, table, left, right, weight, row, price);
    let x = of_quoted(q);
    write_quote(answer, x);
    1
}

// The quote through the door: row's price becomes the one whose 32 bits are price.
// `means` says what the bytes are worth: both totals that are read back are least totals, of the table and of the table with the row's price replaced.
#[unsafe(no_mangle)]
pub extern "C" fn star_quote(
    n: u32,
    left: &[u8],
    right: &[u8],
    weight: &[u8],
    row: u32,
    price: u32,
    answer: &mut [u8],
) -> u32
    ensures returned { result ≡ quote_returns answer.old }
    ensures answered { let c = asked n left.now right.now weight.now in
        answer.new ≡ quote_door c row price answer.old }
    ensures means { let c = asked n left.now right.now weight.now in
        QuoteCall c row price answer.old answer.new result }
{
    let plain = InUse::plain(left.len());
    answered(n, plain, left, right, weight, row, price, answer)
}

// The quote of a working table, whose rows in use are lent as sixteen words, through the door. `means` as above, of the rows in use.
#[unsafe(no_mangle)]
pub extern "C" fn star_work_quote(
    n: u32,
    words: &[u64],
    left: &[u8],
    right: &[u8],
    weight: &[u8],
    row: u32,
    price: u32,
    answer: &mut [u8],
) -> u32
    ensures returned { result ≡ quote_returns answer.old }
    ensures answered { let c = asked_work n words.now left.now right.now weight.now in
        answer.new ≡ quote_door c row price answer.old }
    ensures means { let c = asked_work n words.now left.now right.now weight.now in
        QuoteCall c row price answer.old answer.new result }
{
    let working = InUse::working(words);
    answered(n, working, left, right, weight, row, price, answer)
}
