//! Times and shows what the crates do, for comparisons with other programs: the first word says which crate.
#![tactic(auto)]

mod archives;
mod arrivals;
mod derivations;
mod liveness;
mod memory;

use std::{env, io};

fn main(rt: HostRuntime) -> io::Result<()> {
    let words: Vec<String> = env::args(&rt)?.collect(rt.alloc())?;
    match words.get(1) {
        Some(word) => match word.as_str() {
            "archives" => archives::run(&rt, &words),
            "arrivals" => arrivals::run(&rt, &words),
            "derivations" => derivations::run(&rt, &words),
            "liveness" => liveness::run(&rt, &words),
            _ => println!(rt; "usage: bench [archives | arrivals | derivations | liveness] .."),
        },
        None => {
            archives::example(&rt)?;
            arrivals::example(&rt)?;
            derivations::example(&rt)?;
            liveness::example(&rt)
        }
    }
}
