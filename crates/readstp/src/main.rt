// Reads an STP text on standard input and prints what the import answers: the function of crate programs. It ends with 2 where a read or a write failed.

#![tactic(auto)]

use std::process::ExitCode;

fn main(rt: HostRuntime) -> ExitCode {
    let mut input = rt.stdin();
    let mut output = rt.stdout();
    let status = programs::readstp::run(&mut input, &mut output, &rt);
    // A refusal is an answer, which ends with 0 as a list does.
    ExitCode::from(if status == 2 { 2 } else { 0 })
}
