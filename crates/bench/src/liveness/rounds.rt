//! Rounds of all that `live` does with one graph, each part timed.

ghost use Rattle.std.specs.Prelude.{◌<◌, All, length};
ghost use Rattle.live.specs.Arguments.{rows_view, roots_view};
ghost use Rattle.live.specs.Numbering.{AreRootsOf};

use super::{KEEP, made};
use live::{Graph, Root, Roots, Row, are_valid, mark, referrers, roots_of};
use std::alloc::{AllocError, Global};
use std::io;
use std::rt::Clock;
use std::time::Instant;

/// The places of all entries, object after object.
fn entries(alloc: Global, count: u32) -> Result<Vec<usize>, AllocError> {
    let mut entries = Vec::new(alloc);
    for number in 0..count {
        for target in made::targets(alloc, number, count)? {
            entries.push(target as usize)?;
        }
    }
    Ok(entries)
}

/// The number of entries whose target has a mark below `none`: one pass over the entries, with a look at each target.
fn passed(entries: &[usize], held: &[usize], none: usize) -> usize {
    let mut found = 0usize;
    for target in entries {
        if let Some(root) = held.get(*target) {
            if *root < none {
                found = found.wrapping_add(1);
            }
        }
    }
    found
}

/// Prints a word and the nanoseconds since the start.
fn reported(rt: &(impl Print + Clock), word: &str, start: Instant) -> io::Result<()> {
    let took = start.elapsed(rt)?.as_nanos();
    println!(rt; "{word} {took}")
}

/// What walks against the edges, from the first path.
fn backward(rt: &(impl Print + Clock + AllocGlobal), graph: &Graph, roots: &Roots) -> io::Result<()>
    requires inside { All (λ t. t < length graph.now) roots.now }
{
    if graph.len() == 0 {
        return Ok(());
    }
    let start = Instant::now(rt)?;
    let reaching = roots_of(rt.alloc(), graph, roots, KEEP, 0)?;
    reported(rt, "roots_of", start)?;
    let start = Instant::now(rt)?;
    let referring = referrers(rt.alloc(), graph, &[0])?;
    reported(rt, "referrers", start)?;
    println!(rt; "found {} {}", reaching.len(), referring.len())
}

/// Prints what each part took, the steps of the walk, and what was found.
fn round(
    rt: &(impl Print + Clock + AllocGlobal),
    rows: &[Row],
    given: &[Root],
    entries: &[usize],
) -> io::Result<()>
    requires { AreRootsOf (rows_view rows.now) (roots_view given.now) }
{
    let start = Instant::now(rt)?;
    let graph = Graph::new(rt.alloc(), rows)?;
    reported(rt, "graph", start)?;
    let roots = Roots::new(rt.alloc(), rows, given)?;
    let start = Instant::now(rt)?;
    let marks = mark(rt.alloc(), &graph, &roots, KEEP)?;
    reported(rt, "mark", start)?;
    let held = vec![in rt.alloc(); 0usize; rows.len()]?;
    let start = Instant::now(rt)?;
    let found = passed(entries, &held, roots.len());
    reported(rt, "pass", start)?;
    println!(rt; "steps {} entries {found}", marks.steps())?;
    backward(rt, &graph, &roots)
}

/// Prints a number of rounds, where rows rise and each root keeps one of them.
fn rounds(
    rt: &(impl Print + Clock + AllocGlobal),
    rows: &[Row],
    given: &[Root],
    entries: &[usize],
    count: u32,
) -> io::Result<()> {
    for _ in 0..count {
        if are_valid(rows, given) {
            round(rt, rows, given, entries)?;
        }
    }
    Ok(())
}

/// Makes a graph, and prints a number of rounds.
pub fn run(
    rt: &(impl Print + Clock + AllocGlobal),
    paths: u32,
    roots: u32,
    count: u32,
) -> io::Result<()> {
    let objects = made::objects(rt.alloc(), paths)?;
    let rows = made::rows(rt.alloc(), &objects)?;
    let given = made::roots(rt.alloc(), &objects, roots as usize)?;
    let entries = entries(rt.alloc(), paths)?;
    rounds(rt, &rows, &given, &entries, count)
}
