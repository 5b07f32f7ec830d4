//! Rounds of reading one text, each timed.

use crate::derivations::shown::found;
use std::io;
use std::rt::Clock;
use std::time::Instant;

/// Prints the nanoseconds of each round of `drv::outputs`, a line for each; or the fault of the text after them.
pub fn run(rt: &(impl Print + Clock + AllocGlobal), count: usize, text: &[u8]) -> io::Result<()> {
    for _ in 0..count {
        let start = Instant::now(rt)?;
        let answer = found(rt, text);
        let took = start.elapsed(rt)?.as_nanos();
        match answer {
            Ok(_) => println!(rt; "{took}")?,
            Err(e) => println!(rt; "{took} {e}")?,
        }
    }
    Ok(())
}
