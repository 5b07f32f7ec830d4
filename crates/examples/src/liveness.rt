//! A caller of `live`.
use crate::fixtures::path;
use live::{
    Graph, Keep, Root, Roots, Row, are_valid, do_rise, limited, mark, place_of, referrers, roots_of,
};
use paths::{RootKind, StorePath};
use std::alloc::{AllocError, Global};
use std::test::Fail;

/// References and derivers keep alive.
const KEEP: Keep = Keep {
    outputs: false,
    derivations: true,
};

/// A row without outputs and deriver.
fn row<'a>(path: &'a StorePath, references: &'a [StorePath]) -> Row<'a> {
    Row {
        path,
        references,
        outputs: &[],
        deriver: None,
    }
}

/// The numbers of paths, of roots and of steps where there are none.
fn counts_of_nothing(alloc: Global) -> Result<(usize, usize, u64), AllocError> {
    let graph = Graph::new(alloc, &[])?;
    let roots = Roots::new(alloc, &[], &[])?;
    let marks = mark(alloc, &graph, &roots, KEEP)?;
    Ok((graph.len(), roots.len(), marks.steps()))
}

// Without paths nothing is live, and no step is taken.
#[test]
fn empty_graph(rt: HostRuntime) -> Result<(), Fail> {
    assert_eq!(rt; counts_of_nothing(rt.alloc())?, (0, 0, 0));
    Ok(())
}

/// The place of a path among rows. `None` if no row has it, or the rows don't rise.
fn place(rows: &[Row], path: &StorePath) -> Option<usize> {
    if do_rise(rows) {
        place_of(rows, path)
    } else {
        None
    }
}

#[test]
fn places_of_paths(rt: HostRuntime) -> Result<(), Fail> {
    let first = path(rt.alloc(), "00000000000000000000000000000000-p")?;
    let second = path(rt.alloc(), "11111111111111111111111111111111-x")?;
    let third = path(rt.alloc(), "22222222222222222222222222222222-y")?;
    let rows = [row(&first, &[]), row(&third, &[])];
    assert_eq!(rt; place(&rows, &first), Some(0));
    assert_eq!(rt; place(&rows, &third), Some(1));
    assert_eq!(rt; place(&rows, &second), None);
    Ok(())
}

/// The first root of the path at a place, the number of roots that reach it, and the steps of the marking.
type Reached = (Option<usize>, usize, u64);

fn reach(
    alloc: Global,
    rows: &[Row],
    roots: &[Root],
    place: usize,
) -> Result<Option<Reached>, AllocError> {
    if !do_rise(rows) || !are_valid(rows, roots) {
        return Ok(None);
    }
    let graph = Graph::new(alloc, rows)?;
    if place >= graph.len() {
        return Ok(None);
    }
    let aims = Roots::new(alloc, rows, roots)?;
    let marks = mark(alloc, &graph, &aims, KEEP)?;
    let count = roots_of(alloc, &graph, &aims, KEEP, place)?.len();
    Ok(Some((marks.first_root(place), count, marks.steps())))
}

/// The places of the paths that refer to the first.
fn referrers_of_first(alloc: Global, rows: &[Row]) -> Result<Vec<usize>, AllocError> {
    if !do_rise(rows) {
        return Ok(Vec::new(alloc));
    }
    let graph = Graph::new(alloc, rows)?;
    if graph.len() == 0 {
        return Ok(Vec::new(alloc));
    }
    referrers(alloc, &graph, &[0])
}

/// Whether paths are reached as the second refers to the first and has the root, and nothing refers to the third. There
/// are two live paths, and three objects, an edge and a root.
fn are_reached(alloc: Global, rows: &[Row], roots: &[Root]) -> Result<bool, AllocError> {
    for (place, first, count) in [(0, Some(0), 1), (1, Some(0), 1), (2, None, 0)] {
        match reach(alloc, rows, roots, place)? {
            Some((found, counted, steps))
                if found == first && counted == count && steps >= 2 && steps <= 5 => {}
            _ => return Ok(false),
        }
    }
    Ok(referrers_of_first(alloc, rows)?.as_slice() == [0, 1].as_slice())
}

#[test]
fn reached_by_a_root(rt: HostRuntime) -> Result<(), Fail> {
    let alloc = rt.alloc();
    let first = path(alloc, "00000000000000000000000000000000-p")?;
    let second = path(alloc, "11111111111111111111111111111111-x")?;
    let third = path(alloc, "22222222222222222222222222222222-y")?;
    let mut references = Vec::new(alloc);
    references.push(first.clone()?)?;
    let rows = [
        row(&first, &[]),
        row(&second, &references),
        row(&third, &[]),
    ];
    let roots = [Root {
        kind: RootKind::User,
        target: &second,
        label: "ann/r",
    }];
    assert!(rt; are_reached(alloc, &rows, &roots)?);
    Ok(())
}

/// The places of the paths that a collection up to a limit removes, each path having 112 bytes. There are no roots.
fn removed(alloc: Global, rows: &[Row], limit: u64) -> Result<Option<Vec<usize>>, Fail> {
    if !do_rise(rows) || !are_valid(rows, &[]) {
        return Ok(None);
    }
    let graph = Graph::new(alloc, rows)?;
    let marks = mark(alloc, &graph, &Roots::new(alloc, rows, &[])?, KEEP)?;
    let mut sizes = Vec::new(alloc);
    for _ in 0..graph.len() {
        sizes.push(112)?;
    }
    if sizes.len() != graph.len() {
        return Ok(None);
    }
    Ok(Some(limited(alloc, &graph, &marks, &sizes, limit)?))
}

/// Whether a collection up to each limit removes the right ones of three paths: the first is removed last, since both
/// others refer to it.
fn are_removed(alloc: Global, rows: &[Row]) -> Result<bool, Fail> {
    for (limit, places) in [
        (0, [].as_slice()),
        (1, [1].as_slice()),
        (113, [1, 2].as_slice()),
        (u64::MAX, [0, 1, 2].as_slice()),
    ] {
        match removed(alloc, rows, limit)? {
            Some(found) if found.as_slice() == places => {}
            _ => return Ok(false),
        }
    }
    Ok(true)
}

#[test]
fn removed_up_to_a_limit(rt: HostRuntime) -> Result<(), Fail> {
    let alloc = rt.alloc();
    let first = path(alloc, "00000000000000000000000000000000-p")?;
    let second = path(alloc, "11111111111111111111111111111111-x")?;
    let third = path(alloc, "22222222222222222222222222222222-y")?;
    let mut references = Vec::new(alloc);
    references.push(first.clone()?)?;
    let rows = [
        row(&first, &[]),
        row(&second, &references),
        row(&third, &references),
    ];
    assert!(rt; are_removed(alloc, &rows)?);
    Ok(())
}
