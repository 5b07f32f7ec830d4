//! The program `nixkeep`: passes its words and its standard streams to the library `tool`.
#![tactic(auto)]

use std::process::ExitCode;
use std::{env, io};

fn words(rt: &HostRuntime) -> io::Result<Vec<String>> {
    let words = env::args(rt)?.collect(rt.alloc())?;
    Ok(words)
}

fn main(rt: HostRuntime) -> ExitCode {
    let mut errors = rt.stderr();
    ExitCode::from(match words(&rt) {
        Ok(words) => tool::run(
            &rt,
            tool::Unknown,
            words.as_slice(),
            &mut rt.stdin(),
            &mut rt.stdout(),
            &mut errors,
        ),
        Err(fault) => tool::refuse_words(&fault, &mut errors),
    })
}
