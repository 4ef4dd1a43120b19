// The programs diglist and readstp for C: a few lines of C call one of these functions and end with the status that it gives.
// The handles for standard input, standard output and standard error take no bytes, so C passes nothing for them: it declares `uint32_t star_run_diglist(void)`.

#![tactic(auto)]

ghost use Rattle.std.specs.Prelude.{◌≤◌};

use std::io::{Stderr, Stdin, Stdout};

// The dig list of the STP text on standard input.
#[unsafe(no_mangle)]
pub extern "C" fn star_run_diglist(mut input: Stdin, mut output: Stdout, errors: Stderr) -> u32
    ensures { result ≤ 2 }
{
    programs::diglist::run(&mut input, &mut output, &errors)
}

// What the STP text on standard input holds.
#[unsafe(no_mangle)]
pub extern "C" fn star_run_readstp(mut input: Stdin, mut output: Stdout, errors: Stderr) -> u32
    ensures { result ≤ 2 }
{
    programs::readstp::run(&mut input, &mut output, &errors)
}
