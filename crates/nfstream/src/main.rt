//! The program `nfstream`: `nf_cmd` over standard input, output and error.
#![tactic(auto)]

use nf_cmd::command;
use std::env;
use std::process::ExitCode;

/// Where the words of the command line cannot be had, the status is that of a line that is refused, and nothing is said.
fn main(rt: HostRuntime) -> ExitCode {
    ExitCode::from(run(&rt).unwrap_or(2))
}

fn run(rt: &HostRuntime) -> Option<u8> {
    let words: Vec<String> = env::args(rt).ok()?.collect(rt.alloc()).ok()?;
    let words = words.iter().map(|word| word.as_str());
    let words: Vec<&str> = words.collect(rt.alloc()).ok()?;
    if words.is_empty() {
        return None;
    }
    let (mut input, mut out, mut err) = (rt.stdin(), rt.stdout(), rt.stderr());
    Some(command(rt.alloc(), words.as_slice(), &mut input, &mut out, &mut err))
}
