// The program verdict as a function that gives its exit status: it reads a table file on standard input and prints the verdict in one line. A few lines of C lend it a buffer, since no stack
// holds the longest text, call it and end with its status.
// The line is made whole by verdict::print_text, whose contract says what it is, before a byte is printed. Where the reader and the writer say which bytes they have, a contract says what is
// printed; standard input and output say nothing, and what is known of them ends here: no contract says which bytes were read, nor what the system does with those that are written.

#![tactic(auto)]

ghost use Rattle.std.specs.Prelude.{◌⊎◌, ◌≡◌, ◌≢◌, ◌≤◌, IfSome, length, take};
ghost use Rattle.std.specs.Io.KnownBytes.{Appends};
ghost use Rattle.verdict_spec.specs.VerdictText.{verdict_text, verdict_status};

use std::io::{Eprint, Read, Stderr, Stdin, Stdout, Write};
use streams::{first, tell, write_text};
use verdict_lines::LINE_BYTES;

// One byte more than the longest text that is read, so that a longer one is noticed.
const TEXT_BYTES: usize = 16777217;

// Writes the line of a text and gives the exit status: 5 where it is not written, else that of the verdict. The bytes that are handed on are those that are to be printed of the text.
fn write_line<W: Write, E: Eprint>(
    output: &mut W,
    errors: &E,
    text: &[u8],
    line: &[u8],
    status: u32,
) -> u32
    requires { (line.now ≡ verdict_text text.now) × (status ≡ verdict_status text.now) × (status ≤ 2) }
    ensures status { (result ≡ verdict_status text.now) ⊎ (result ≡ 5) }
    ensures few { result ≤ 5 }
    ensures written { result ≢ 5 → Appends (W.contents output.old) (W.contents output.new) (verdict_text text.now) }
{
    if let Err(error) = write_text(output, line) {
        tell(errors, "verdict: the line is not printed whole", error);
        return 5;
    }
    status
}

// Prints the verdict on a text, and gives the exit status.
fn print<W: Write, E: Eprint>(output: &mut W, errors: &E, text: &[u8]) -> u32
    ensures status { (result ≡ verdict_status text.now) ⊎ (result ≡ 5) }
    ensures few { result ≤ 5 }
    ensures written { result ≢ 5 → Appends (W.contents output.old) (W.contents output.new) (verdict_text text.now) }
{
    let mut bytes = [0u8; LINE_BYTES];
    let line = verdict::print_text(text, &mut bytes);
    let status = line.status;
    let size = line.size;
    write_line(output, errors, text, first(&bytes, size), status)
}

// Reads a text into the buffer and prints the verdict on it. Of a text that the reader says, it is the line of as many of its first bytes as the buffer holds that is written, and the status is
// that of this line: 3 where the text cannot be read or the buffer is too small, 5 where the line is not written, else that of the verdict.
fn run<R: Read, W: Write, E: Eprint>(
    buffer: &mut [u8],
    input: &mut R,
    output: &mut W,
    errors: &E,
) -> u32
    ensures few { result ≤ 5 }
    ensures status { IfSome (R.remaining input.old) (λ text.
        (result ≡ verdict_status (take (length buffer.old) text)) ⊎ (result ≡ 3) ⊎ (result ≡ 5)) }
    ensures written { IfSome (R.remaining input.old) (λ text. result ≢ 3 → result ≢ 5 →
        Appends (W.contents output.old) (W.contents output.new) (verdict_text (take (length buffer.old) text))) }
{
    if buffer.len() < TEXT_BYTES {
        let _ = errors.eprintln("verdict: the buffer is too small");
        return 3;
    }
    let got = streams::read_text(input, buffer);
    if let Some(error) = got.error {
        tell(errors, "verdict: standard input is not read", error);
        return 3;
    }
    let size = got.size;
    print(output, errors, &buffer[..size])
}

// The program, with a buffer of 16,777,217 bytes lent. Its exit status is that of the console's check: 0 where the plan passes, 1 where a cheaper one exists, 2 for a refusal,
// 3 where the text cannot be read, 5 where the line is not written.
// The handles take no bytes, so C passes nothing for them: it declares `uint32_t star_run_verdict(uint8_t *buffer, size_t size)`.
#[unsafe(no_mangle)]
pub extern "C" fn star_run_verdict(
    buffer: &mut [u8],
    mut input: Stdin,
    mut output: Stdout,
    errors: Stderr,
) -> u32
    ensures { result ≤ 5 }
{
    run(buffer, &mut input, &mut output, &errors)
}
