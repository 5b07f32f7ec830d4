//! What `nar` does with an archive that comes on standard input, timed and shown.

mod made;
mod rounds;
mod stream;

use rounds::Work;
use std::io;
use std::io::Read;

const USAGE: &str =
    "usage: bench archives [time WORK ROUNDS | load | hold | rewrite | list | check SIZE]";

/// What comes on standard input.
fn input(rt: &HostRuntime) -> io::Result<Vec<u8>> {
    let mut bytes = Vec::new(rt.alloc());
    rt.stdin().read_to_end(&mut bytes)?;
    Ok(bytes)
}

fn number(word: Option<&String>) -> Option<usize> {
    word?.as_str().parse::<usize>().ok()
}

/// All of it over one small directory.
pub fn example(rt: &HostRuntime) -> io::Result<()> {
    made::run(rt)
}

/// What the words after the first two ask for.
pub fn run(rt: &HostRuntime, words: &[String]) -> io::Result<()> {
    let Some(first) = words.get(2) else {
        return println!(rt; "{USAGE}");
    };
    match (first.as_str(), words.get(3), number(words.get(4))) {
        ("time", Some(word), Some(count)) => match Work::from_word(word.as_str()) {
            Some(work) => rounds::run(rt, work, count, &input(rt)?),
            None => println!(rt; "{USAGE}"),
        },
        ("load", None, None) => {
            let _bytes = input(rt)?;
            crate::memory::peak(rt)
        }
        ("hold", None, None) => stream::hold(rt, &input(rt)?),
        ("rewrite", None, None) => stream::rewrite(rt, &input(rt)?),
        ("list", None, None) => stream::show(rt, &input(rt)?),
        ("check", size, None) => stream::check(rt, number(size).unwrap_or(65_536)),
        _ => println!(rt; "{USAGE}"),
    }
}
