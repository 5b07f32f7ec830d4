//! A graph to walk: paths in order, each with ten references.

use live::{Root, Row};
use paths::{RootKind, StorePath, base32};
use std::alloc::{AllocError, Global};

/// How many references each object has.
const EACH: u32 = 10;

/// A path, and the paths that it refers to.
#[derive(Drop)]
pub struct Object {
    path: StorePath,
    references: Vec<StorePath>,
}

/// The path of a number below 100,000: paths rise with their numbers, and differ early, as digests do.
fn path(alloc: Global, number: u32) -> Result<StorePath, AllocError> {
    let [low, next, high, highest] = number.wrapping_mul(42_949).to_le_bytes();
    let mut bytes = [0u8; 20];
    bytes[16] = low;
    bytes[17] = next;
    bytes[18] = high;
    bytes[19] = highest;
    let digits = base32(alloc, &bytes)?;
    let base = format!(in alloc; "{digits}-p")?;
    match StorePath::from_base(alloc, base.as_str()) {
        Ok(path) => Ok(path),
        Err(_) => Err(AllocError),
    }
}

/// The numbers that an object refers to: the next one, and others without order.
pub fn targets(alloc: Global, number: u32, count: u32) -> Result<Vec<u32>, AllocError> {
    let count = count.max(1);
    let mut seed = u64::from(number);
    let mut targets = Vec::new(alloc);
    targets.push(number.wrapping_add(1) % count)?;
    for _ in 1..EACH {
        seed = seed
            .wrapping_mul(6_364_136_223_846_793_005)
            .wrapping_add(1_442_695_040_888_963_407);
        targets.push((seed >> 32) as u32 % count)?;
    }
    Ok(targets)
}

/// A number of objects.
pub fn objects(alloc: Global, count: u32) -> Result<Vec<Object>, AllocError> {
    let mut objects = Vec::new(alloc);
    for number in 0..count {
        let mut references = Vec::new(alloc);
        for target in targets(alloc, number, count)? {
            references.push(path(alloc, target)?)?;
        }
        objects.push(Object {
            path: path(alloc, number)?,
            references,
        })?;
    }
    Ok(objects)
}

/// Objects as rows of a graph.
pub fn rows(alloc: Global, objects: &[Object]) -> Result<Vec<Row<'_>>, AllocError> {
    let mut rows = Vec::new(alloc);
    for object in objects {
        rows.push(Row {
            path: &object.path,
            references: object.references.as_slice(),
            outputs: &[],
            deriver: None,
        })?;
    }
    Ok(rows)
}

/// Roots of the last objects, at most a given number.
pub fn roots(alloc: Global, objects: &[Object], count: usize) -> Result<Vec<Root<'_>>, AllocError> {
    let mut roots = Vec::new(alloc);
    for object in objects.iter().skip(objects.len().saturating_sub(count)) {
        roots.push(Root {
            kind: RootKind::Permanent,
            target: &object.path,
            label: "gcroots/n",
        })?;
    }
    Ok(roots)
}
