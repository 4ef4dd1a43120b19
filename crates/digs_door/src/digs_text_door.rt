// The dig list of an STP text for C.
ghost use Rattle.std.specs.Prelude.{◌≡◌};
ghost use Rattle.digs_spec.specs.DigList.{text_list};
ghost use Rattle.digs_spec.specs.Door.{text_fields, list_returns, list_answered, list_text};
ghost use Rattle.digs_spec.specs.TextBytes.{DigsTextCall};

use answer::{well_lent, write_answer};
use digs::LIST_BYTES;
use digs_answer::of_text_list;

// The list of an STP text, through the door. `means` says what the bytes and the text are worth.
#[unsafe(no_mangle)]
pub extern "C" fn star_digs_text(stp: &[u8], text: &mut [u8], answer: &mut [u8]) -> u32
    ensures returned { result ≡ list_returns text.old answer.old }
    ensures answered { let a = text_list stp.now in
        answer.new ≡ list_answered text.old answer.old (text_fields a) }
    ensures listed { let a = text_list stp.now in
        text.new ≡ list_text a text.old answer.old }
    ensures means { DigsTextCall stp.now text.old answer.old text.new answer.new result }
{
    if !well_lent(answer) {
        return 0;
    }
    if text.len() < LIST_BYTES {
        return 0;
    }
    let list = digs::text_list(stp, text);
    let x = of_text_list(list);
    write_answer(answer, x);
    1
}
