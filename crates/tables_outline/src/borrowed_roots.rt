//! All roots of an outline, borrowed.

ghost use Rattle.std.specs.Prelude.{◌≡◌, map, string_bytes};
ghost use Rattle.std.specs.FinMap as finite;
ghost use Rattle.tables_outline.specs.Maps.{labelled_bytes, pair_bytes, temporary_bytes};

use crate::outline::Outline;
use paths::StorePath;
use std::collections::{BTreeMap, BTreeSet};

impl Outline {
    /// All permanent roots, borrowed, in the order of their names.
    ///
    /// ```rust
    /// tables.put_permanent("system", path)?;
    /// assert_eq!(rt; tables.outline().permanent_roots().get("system"), Some(path));
    /// ```
    pub fn permanent_roots(&self) -> &BTreeMap<String, StorePath>
        ensures { map (λ e. (string_bytes e.0, e.1)) result.now.entries ≡ finite.entries self.now.permanent }
    {
        // Names rise.
        let _count = self.permanent.len();
        &self.permanent
    }

    /// All user roots, borrowed, in the order of their owners and names.
    ///
    /// ```rust
    /// tables.put_user_root("ann", "editor", path)?;
    /// assert_eq!(rt; tables.outline().user_roots().len(), 1);
    /// ```
    pub fn user_roots(&self) -> &BTreeMap<(String, String), StorePath>
        ensures { map (λ e. (pair_bytes e.0, e.1)) result.now.entries ≡ finite.entries self.now.user_roots }
    {
        // Owners and names rise.
        let _count = self.user_roots.len();
        &self.user_roots
    }

    /// All runtime roots, borrowed, in the order of their labels and targets.
    ///
    /// ```rust
    /// assert!(rt; tables.outline().runtime_roots().is_empty());
    /// ```
    pub fn runtime_roots(&self) -> &BTreeSet<(String, StorePath)>
        ensures { map labelled_bytes result.now.keys ≡ finite.keys self.now.runtime }
    {
        // Labels and targets rise.
        let _count = self.runtime.len();
        &self.runtime
    }

    /// All temporary roots, borrowed, in the order of their owners, sessions and paths.
    ///
    /// ```rust
    /// tables.add_temp("ann", 7, path)?;
    /// assert_eq!(rt; tables.outline().temporary_roots().len(), 1);
    /// ```
    pub fn temporary_roots(&self) -> &BTreeSet<(String, u32, StorePath)>
        ensures { map temporary_bytes result.now.keys ≡ finite.keys self.now.temporary }
    {
        // Owners, sessions and paths rise.
        let _count = self.temporary.len();
        &self.temporary
    }
}
