//! What `intake` does with an archive that comes on standard input, timed, and the memory that it takes.

mod rounds;
mod seams;
mod stream;

use intake::Intake;
use std::io;
use std::io::Read;

const USAGE: &str = "usage: bench arrivals [time SIZE ROUNDS | hold SIZE | cut COUNT]";

fn number(word: Option<&String>) -> Option<usize> {
    word?.as_str().parse::<usize>().ok()
}

/// Places from the beginning of an archive on, and from as many before a seam on, where it is cut.
const NEAR: usize = 100;

/// A text on its way in, and archives that are cut in many ways.
pub fn example(rt: &HostRuntime) -> io::Result<()> {
    let contents = vec![in rt.alloc(); b'a'; 100_000]?;
    let arrived = Intake::of_text(rt.alloc(), &contents)?.finish()?;
    let size = arrived.pieces.len();
    println!(rt;
        "a text whose archive has {size} bytes in {} pieces",
        arrived.pieces.count()
    )?;
    seams::run(rt, NEAR)
}

/// What the words after the first two ask for.
pub fn run(rt: &HostRuntime, words: &[String]) -> io::Result<()> {
    let Some(first) = words.get(2) else {
        return println!(rt; "{USAGE}");
    };
    match (first.as_str(), number(words.get(3)), number(words.get(4))) {
        ("time", Some(size), Some(count)) => {
            let mut bytes = Vec::new(rt.alloc());
            rt.stdin().read_to_end(&mut bytes)?;
            rounds::run(rt, size, count, &bytes)
        }
        ("hold", Some(size), None) => stream::hold(rt, size),
        ("cut", Some(count), None) => seams::run(rt, count),
        _ => println!(rt; "{USAGE}"),
    }
}
