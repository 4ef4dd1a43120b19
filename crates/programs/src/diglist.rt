// Reads an STP text on standard input and prints the dig list of MST1's tree: a line a row with its position, ends and weight, and the total; or the line of a refusal.
// The page is made whole by digs::print_text, whose contract says what it is, before a byte is printed.
ghost use Rattle.std.specs.Prelude.{◌⊎◌, ◌≡◌, ◌≢◌, ◌≤◌, IfSome, take};
ghost use Rattle.std.specs.Io.KnownBytes.{Appends};
ghost use Rattle.digs_spec.specs.DigList.{text_list, printed, exit_status};

use digs::LIST_BYTES;
use std::io::{Eprint, Read, Write};
use streams::{first, print_page, tell};

// One byte more than the longest text that is taken, so that a longer one is noticed.
const TEXT_BYTES: usize = 65537;

// Writes the list of a text and gives the exit status: 2 where it is not written, else that of the list. The bytes that are handed on are those that are to be printed of the text.
fn write_list<W: Write, E: Eprint>(
    output: &mut W,
    errors: &E,
    text: &[u8],
    list: &[u8],
    status: u32,
) -> u32
    requires { (list.now ≡ printed (text_list text.now)) × (status ≡ exit_status (text_list text.now)) × (status ≤ 1) }
    ensures status { (result ≡ exit_status (text_list text.now)) ⊎ (result ≡ 2) }
    ensures few { result ≤ 2 }
    ensures written { result ≢ 2 → Appends (W.contents output.old) (W.contents output.new) (printed (text_list text.now)) }
{
    let what = "diglist: the list is not printed whole";
    print_page(output, errors, list, what, status, 2)
}

// Prints the list of a text, and gives the exit status: 2 where it is not written, else 0 for a list and 1 for a refusal.
fn list<W: Write, E: Eprint>(output: &mut W, errors: &E, text: &[u8]) -> u32
    ensures status { (result ≡ exit_status (text_list text.now)) ⊎ (result ≡ 2) }
    ensures few { result ≤ 2 }
    ensures written { result ≢ 2 → Appends (W.contents output.old) (W.contents output.new) (printed (text_list text.now)) }
{
    let mut bytes = [0u8; LIST_BYTES];
    let page = digs::print_text(text, &mut bytes);
    let status = page.status;
    let size = page.size;
    write_list(output, errors, text, first(&bytes, size), status)
}

// The program: its exit status is 0 for a list, 1 for a refusal, 2 where the text cannot be read or the list not be written. Of a text that the reader says, it is the list of the first 65,537
// bytes that is written, and the status is that of this list.
pub fn run<R: Read, W: Write, E: Eprint>(input: &mut R, output: &mut W, errors: &E) -> u32
    ensures few { result ≤ 2 }
    ensures status { IfSome (R.remaining input.old) (λ text. (result ≡ exit_status (text_list (take 65537 text))) ⊎ (result ≡ 2)) }
    ensures written { IfSome (R.remaining input.old) (λ text. result ≢ 2 →
        Appends (W.contents output.old) (W.contents output.new) (printed (text_list (take 65537 text)))) }
{
    let mut buffer = [0u8; TEXT_BYTES];
    let got = streams::read_text(input, &mut buffer);
    if let Some(error) = got.error {
        tell(errors, "diglist: standard input is not read", error);
        return 2;
    }
    let size = got.size;
    list(output, errors, &buffer[..size])
}
