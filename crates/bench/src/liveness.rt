//! What `live` does with a graph that the program makes, timed.

mod made;
mod rounds;
mod shown;

use live::Keep;
use std::io;

/// All that can be kept is kept.
const KEEP: Keep = Keep {
    outputs: true,
    derivations: true,
};

const USAGE: &str = "usage: bench liveness time PATHS ROOTS ROUNDS";

fn number(word: Option<&String>) -> Option<u32> {
    word?.as_str().parse::<u32>().ok()
}

/// A walk over a small graph.
pub fn example(rt: &HostRuntime) -> io::Result<()> {
    shown::run(rt)
}

/// What the words after the first two ask for.
pub fn run(rt: &HostRuntime, words: &[String]) -> io::Result<()> {
    let numbers = (
        number(words.get(3)),
        number(words.get(4)),
        number(words.get(5)),
    );
    match (words.get(2), numbers) {
        (Some(word), (Some(paths), Some(roots), Some(count))) if word.as_str() == "time" => {
            rounds::run(rt, paths, roots, count)
        }
        _ => println!(rt; "{USAGE}"),
    }
}
