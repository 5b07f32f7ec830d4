//! A caller of `live`, which counts the steps of walks: a step is one root, one object or one edge that is looked at.
use crate::fixtures::path;
use live::{Graph, Keep, Root, Roots, Row, are_valid, do_rise, mark};
use paths::{RootKind, StorePath};
use std::alloc::{AllocError, Global};
use std::test::Fail;

/// References, outputs and derivers keep alive.
const KEEP: Keep = Keep {
    outputs: true,
    derivations: true,
};

/// The steps of a walk. `None` if the rows don't rise, or the target of a root is no row's.
fn steps_of(alloc: Global, rows: &[Row], roots: &[Root]) -> Result<Option<u64>, AllocError> {
    if !do_rise(rows) || !are_valid(rows, roots) {
        return Ok(None);
    }
    let graph = Graph::new(alloc, rows)?;
    let aims = Roots::new(alloc, rows, roots)?;
    let marks = mark(alloc, &graph, &aims, KEEP)?;
    Ok(Some(marks.steps()))
}

/// A root of a user.
fn root<'a>(target: &'a StorePath, label: &'a str) -> Root<'a> {
    Root {
        kind: RootKind::User,
        target,
        label,
    }
}

/// A row without references.
fn row<'a>(
    path: &'a StorePath,
    outputs: &'a [StorePath],
    deriver: Option<&'a StorePath>,
) -> Row<'a> {
    Row {
        path,
        references: &[],
        outputs,
        deriver,
    }
}

// A derivation and its output keep each other: two objects, two edges and a root.
#[test]
fn steps_of_two_objects(rt: HostRuntime) -> Result<(), Fail> {
    let alloc = rt.alloc();
    let derivation = path(alloc, "00000000000000000000000000000000-d.drv")?;
    let output = path(alloc, "11111111111111111111111111111111-o")?;
    let mut outputs = Vec::new(alloc);
    outputs.push(output.clone()?)?;
    let rows = [
        row(&derivation, &outputs, None),
        row(&output, &[], Some(&derivation)),
    ];
    let steps = steps_of(alloc, &rows, &[root(&output, "ann/r")])?;
    assert!(rt; matches!(steps, Some(2..=5)));
    let steps = steps_of(alloc, &rows, &[])?;
    assert!(rt; matches!(steps, Some(0..=4)));
    Ok(())
}

/// The path of a number: paths rise with their numbers.
fn numbered(alloc: Global, number: u32) -> Result<StorePath, Fail> {
    let base = format!(in alloc; "{number:032}-p")?;
    Ok(path(alloc, base.as_str())?)
}

/// A path, and the next one or none.
type Link = (StorePath, Vec<StorePath>);

/// Paths, each with the next one.
fn chain(alloc: Global, count: u32) -> Result<Vec<Link>, Fail> {
    let mut links = Vec::new(alloc);
    for number in 0..count {
        let mut references = Vec::new(alloc);
        if number < count - 1 {
            references.push(numbered(alloc, number + 1)?)?;
        }
        links.push((numbered(alloc, number)?, references))?;
    }
    Ok(links)
}

/// Paths as rows of a graph, each of which refers to the next.
fn rows(alloc: Global, links: &[Link]) -> Result<Vec<Row<'_>>, AllocError> {
    let mut rows = Vec::new(alloc);
    for link in links {
        rows.push(Row {
            path: &link.0,
            references: link.1.as_slice(),
            outputs: &[],
            deriver: None,
        })?;
    }
    Ok(rows)
}

/// The steps of a walk over a chain, with roots on the first path and on the last.
fn steps_of_chain(alloc: Global, links: &[Link]) -> Result<Option<u64>, AllocError> {
    let (Some(first), Some(last)) = (links.first(), links.last()) else {
        return Ok(None);
    };
    let rows = rows(alloc, links)?;
    steps_of(
        alloc,
        &rows,
        &[root(&first.0, "ann/a"), root(&last.0, "ann/b")],
    )
}

// 5,000 objects, 4,999 edges and two roots, the second of which has nothing left to mark.
#[test]
fn steps_of_a_chain(rt: HostRuntime) -> Result<(), Fail> {
    let alloc = rt.alloc();
    let links = chain(alloc, 5_000)?;
    let steps = steps_of_chain(alloc, &links)?;
    assert!(rt; matches!(steps, Some(5_000..=10_001)));
    Ok(())
}
