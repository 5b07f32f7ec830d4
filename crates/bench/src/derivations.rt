//! The outputs of the derivation text that comes on standard input, shown and timed.

mod rounds;
mod shown;

use std::io;
use std::io::Read;

const USAGE: &str = "usage: bench derivations [outputs | time ROUNDS]";

/// The most bytes that are read: 64 MiB.
const LIMIT: usize = 67_108_864;

/// What comes on standard input; nothing where that is more than `LIMIT` bytes.
fn input(rt: &HostRuntime) -> io::Result<Option<Vec<u8>>> {
    let mut bytes = Vec::new(rt.alloc());
    let mut piece = vec![in rt.alloc(); 0u8; 65_536]?;
    let mut stdin = rt.stdin();
    for _ in 0..u64::MAX {
        let got = stdin.read(&mut piece)?;
        if got == 0 {
            return Ok(Some(bytes));
        }
        bytes.extend_from_slice(&piece[..got])?;
        if bytes.len() > LIMIT {
            break;
        }
    }
    Ok(None)
}

fn number(word: Option<&String>) -> Option<usize> {
    word?.as_str().parse::<usize>().ok()
}

/// The output of a derivation of its own.
pub fn example(rt: &HostRuntime) -> io::Result<()> {
    shown::run(rt, shown::EXAMPLE.as_bytes())
}

/// What the words after the first two ask for.
pub fn run(rt: &HostRuntime, words: &[String]) -> io::Result<()> {
    let Some(first) = words.get(2) else {
        return println!(rt; "{USAGE}");
    };
    let rounds = match (first.as_str(), words.get(3), number(words.get(3))) {
        ("outputs", None, None) => None,
        ("time", Some(_), Some(count)) => Some(count),
        _ => return println!(rt; "{USAGE}"),
    };
    match (rounds, input(rt)?) {
        (None, Some(text)) => shown::run(rt, &text),
        (Some(count), Some(text)) => rounds::run(rt, count, &text),
        (_, None) => println!(rt; "more than {LIMIT} bytes"),
    }
}
