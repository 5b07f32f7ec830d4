//! Objects and roots as a caller passes them.
use paths::{RootKind, StorePath};

/// An object as a caller passes it: its path, and what it points to, borrowed from the caller.
#[derive(Clone, Copy)]
pub struct Row<'a> {
    /// The path.
    pub path: &'a StorePath,
    /// The references.
    pub references: &'a [StorePath],
    /// The paths of the outputs.
    pub outputs: &'a [StorePath],
    /// The deriver, if one is recorded.
    pub deriver: Option<&'a StorePath>,
}

/// A root as a caller passes it.
#[derive(Clone, Copy)]
pub struct Root<'a> {
    /// The kind.
    pub kind: RootKind,
    /// The path that it keeps.
    pub target: &'a StorePath,
    /// The label.
    pub label: &'a str,
}
