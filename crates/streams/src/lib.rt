// Whole texts read, with errors told apart from ends, the start of a buffer, and whole texts written. What a clause knows of the bytes that are read and written is what the reader and the writer
// say of them: standard input and standard output say nothing.

#![tactic(auto)]

ghost use Rattle.std.specs.Prelude.{◌⊎◌, ◌≢◌, ◌≡◌, ◌<◌, length, take, None, IfSome, OnOk};
ghost use Rattle.std.specs.Io.KnownBytes.{Appends, Consumes, IsAtEnd};
ghost use Rattle.io.specs.Counts.{IsPrefixLen};

use std::io::{Eprint, Error, Read, Result, Write};

// What was read: the number of bytes at the buffer's start, and the error that ended the reading, if one did.
#[derive(Clone, Copy)]
pub struct Input {
    pub size: usize,
    pub error: Option<Error>,
}

// One piece of an input, as it comes: no bytes at its end, and none with an error.
fn read_piece<R: Read>(reader: &mut R, buffer: &mut [u8]) -> Input
    ensures counts { IsPrefixLen result.size buffer.new }
    ensures consumes { Consumes (R.remaining reader.old) (R.remaining reader.new) (take result.size buffer.new) }
    ensures whole { result.error ≡ None → result.size ≡ 0 → 0 < length buffer.new → IsAtEnd (R.remaining reader.new) }
{
    match reader.read(buffer) {
        Ok(size) => Input { size, error: None },
        Err(error) => Input {
            size: 0,
            error: Some(error),
        },
    }
}

// Reads in pieces until the input ends, the buffer is full or an error occurs. Where the reader says which bytes it has, those at the buffer's start are the ones that it gave, and a reading
// that no error ended has as many of them as the buffer holds.
pub fn read_text<R: Read>(reader: &mut R, buffer: &mut [u8]) -> Input
    ensures counts { IsPrefixLen result.size buffer.new }
    ensures consumes { Consumes (R.remaining reader.old) (R.remaining reader.new) (take result.size buffer.new) }
    ensures whole { result.error ≡ None → result.size < length buffer.new → IsAtEnd (R.remaining reader.new) }
    ensures text { result.error ≡ None → IfSome (R.remaining reader.old) (λ text. take result.size buffer.new ≡ take (length buffer.new) text) }
{
    let mut size = 0;
    while size < buffer.len() {
        let piece = read_piece(reader, &mut buffer[size..]);
        if piece.size == 0 {
            return Input {
                size,
                error: piece.error,
            };
        }
        size += piece.size;
    }
    Input { size, error: None }
}

// The first `size` bytes of a buffer, all of it where it has fewer.
pub fn first(buffer: &[u8], size: usize) -> &[u8]
    ensures { result.now ≡ take size buffer.now }
{
    &buffer[..size.min(buffer.len())]
}

// Writes all the bytes, or answers an error, after which some of them may have been written.
pub fn write_text<W: Write>(output: &mut W, bytes: &[u8]) -> Result<()>
    ensures { OnOk result (Appends (W.contents output.old) (W.contents output.new) bytes.now) }
{
    output.write_all(bytes)?;
    output.flush()
}

// Tells an error in a line, after what it kept from being done. Where it cannot be told, nothing is.
pub fn tell<E: Eprint>(errors: &E, what: &str, error: Error) {
    let _ = errors.eprintln(format_args!("{what}: {error}"));
}

// Prints a page and gives the exit status: `failed`, told in a line, where it is not printed whole.
pub fn print_page<W: Write, E: Eprint>(
    output: &mut W,
    errors: &E,
    page: &[u8],
    unprinted: &str,
    status: u32,
    failed: u32,
) -> u32
    ensures status { (result ≡ status) ⊎ (result ≡ failed) }
    ensures written { result ≢ failed → Appends (W.contents output.old) (W.contents output.new) page.now }
{
    if let Err(error) = write_text(output, page) {
        tell(errors, unprinted, error);
        return failed;
    }
    status
}
