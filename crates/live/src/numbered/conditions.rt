//! Tests of what callers have to meet.
ghost use Rattle.std.specs.Prelude.{IsTrue};
ghost use Rattle.live.specs.Numbering.{AreRootsOf, Rise, paths_of};
ghost use Rattle.live.specs.Arguments.{rows_view, roots_view};

use crate::numbered::places::place_of;
use crate::numbered::rows::{Root, Row};
use std::cmp::Ordering;

/// Whether rows strictly rise.
///
/// ```rust
/// use live::Row;
/// use paths::StorePath;
///
/// let first = StorePath::from_base(alloc, "00000000000000000000000000000000-p")?;
/// let second = StorePath::from_base(alloc, "11111111111111111111111111111111-x")?;
/// let p = Row { path: &first, references: &[], outputs: &[], deriver: None };
/// let x = Row { path: &second, references: &[], outputs: &[], deriver: None };
/// assert!(rt; live::do_rise(&[p, x]) && !live::do_rise(&[x, p]) && !live::do_rise(&[p, p]));
/// ```
pub fn do_rise(rows: &[Row]) -> bool
    ensures { IsTrue result → Rise (paths_of (rows_view rows.now)) }
{
    for i in 1..rows.len() {
        match rows[i - 1].path.cmp(rows[i].path) {
            Ordering::Less => {}
            _ => return false,
        }
    }
    true
}

/// Whether rows strictly rise and each root's target is a row's path.
///
/// ```rust
/// use live::{Root, Row};
/// use paths::{RootKind, StorePath};
///
/// let path = StorePath::from_base(alloc, "00000000000000000000000000000000-p")?;
/// let rows = [Row { path: &path, references: &[], outputs: &[], deriver: None }];
/// let root = Root { kind: RootKind::Runtime, target: &path, label: "/proc/1/exe" };
/// assert!(rt; live::are_valid(&rows, &[root]) && !live::are_valid(&[], &[root]));
/// ```
pub fn are_valid(rows: &[Row], roots: &[Root]) -> bool
    ensures { IsTrue result → AreRootsOf (rows_view rows.now) (roots_view roots.now) }
{
    if !do_rise(rows) {
        return false;
    }
    for root in roots {
        if place_of(rows, root.target).is_none() {
            return false;
        }
    }
    true
}
