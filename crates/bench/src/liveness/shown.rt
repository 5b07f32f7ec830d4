//! What the program does without words: a walk over a small graph.

use super::{KEEP, made};
use live::{Graph, Root, Roots, Row, are_valid, do_rise, mark};
use std::io;

/// Prints the steps of the walk, where rows rise and each root keeps one of them.
fn walk(rt: &(impl Print + AllocGlobal), rows: &[Row], given: &[Root]) -> io::Result<()> {
    if do_rise(rows) && are_valid(rows, given) {
        let graph = Graph::new(rt.alloc(), rows)?;
        let roots = Roots::new(rt.alloc(), rows, given)?;
        let steps = mark(rt.alloc(), &graph, &roots, KEEP)?.steps();
        println!(rt; "{} paths walked in {steps} steps", graph.len())?;
    }
    Ok(())
}

pub fn run(rt: &(impl Print + AllocGlobal)) -> io::Result<()> {
    let objects = made::objects(rt.alloc(), 1_000)?;
    let rows = made::rows(rt.alloc(), &objects)?;
    let given = made::roots(rt.alloc(), &objects, 10)?;
    walk(rt, &rows, &given)
}
