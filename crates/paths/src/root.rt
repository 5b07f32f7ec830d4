//! Roots, and their order.
ghost use Rattle.std.specs.Prelude.{◌≡◌};
ghost use Rattle.paths.specs.Root.{root_cmp};
ghost use Rattle.paths.specs.RootView.{root_view};

use crate::store_path::StorePath;
use std::cmp::Ordering;

/// The kind of a root, in the order of kinds.
#[derive(Clone, Copy, PartialEq, Eq, PartialOrd, Ord, Debug)]
pub enum RootKind {
    /// A permanent root, by its name.
    Permanent,
    /// A root of a user, by its owner and its name.
    User,
    /// A generation of a profile.
    Profile,
    /// A path that processes use.
    Runtime,
    /// A path that a session keeps.
    Temporary,
}

/// A root: the path that it keeps, and the label that listings show. Roots are ordered by kind, then target, then
/// label.
#[derive(PartialEq, Eq, PartialOrd, Ord, Drop)]
pub struct Root {
    /// The kind.
    pub kind: RootKind,
    /// The path that it keeps.
    pub target: StorePath,
    /// The label, such as `gcroots/NAME`.
    pub label: String,
}

impl Root {
    /// How this root and another are ordered in listings, as `cmp` has it.
    pub fn order(&self, other: &Root) -> Ordering
        ensures { result ≡ root_cmp (root_view self.now) (root_view other.now) }
    {
        self.cmp(other)
    }
}
