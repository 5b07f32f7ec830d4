//! Reads of what the tables hold.

ghost use Rattle.std.specs.Prelude.{◌≡◌, IfOk, map, option_map};
ghost use Rattle.std.specs.FinMap as finite;
ghost use Rattle.model.specs.World.{World, roots_of};
ghost use Rattle.tables_outline.specs.View.{profile_view};
ghost use Rattle.tables_outline.specs.Outline.{outlined};
ghost use Rattle.paths.specs.RootView.{root_view};
ghost use Rattle.tables_writes.specs.Entries.{object_view};
ghost use Rattle.tables_writes.specs.Writes.{ReadsTables};
ghost use Rattle.tables_writes.specs.TablesValue.{HasWorld};

use crate::tables::Tables;
use crate::user_roots::owned;
use paths::{Root, StorePath};
use sqlite::Alter;
use std::alloc::{AllocError, Global};
use std::collections::BTreeMap;
use streams::Pieces;
use tables_outline::{Details, Outputs, Profile, Summary, root_list};
use tables_sql::failure::Failed;

/// An object: its archive, and the summary of its other facts.
#[derive(Drop)]
pub struct Object {
    /// The bytes of the archive.
    pub nar: Pieces,
    /// References, deriver, content address and outputs of the object, and the size and the SHA-256 of the archive.
    pub summary: Summary,
}

/// All objects and roots.
#[derive(Drop)]
pub struct Snapshot<'a> {
    /// The summary of each object, by path, in order: all but the bytes of the archive. Borrowed from the tables.
    pub objects: &'a BTreeMap<StorePath, Summary>,
    /// Each root, in the order of roots.
    pub roots: Vec<Root>,
}

/// An owned copy of a summary.
fn copied(alloc: Global, object: &Summary) -> Result<Summary, AllocError>
    ensures { IfOk result (λ copy. copy ≡ object.now) }
{
    let references = object.references().to_vec(alloc)?;
    let deriver = object.deriver().cloned()?;
    let names = object.names().to_vec(alloc)?;
    let paths = object.outputs().to_vec(alloc)?;
    let details = Details {
        deriver,
        ca: object.ca(),
        outputs: Outputs { names, paths },
    };
    let copy = Summary::new(alloc, object.size(), *object.hash(), references, details)?;
    Ok(copy)
}

impl<S: Alter> Tables<S> {
    /// All objects and roots. The only error is that memory was refused.
    ///
    /// ```rust
    /// use tables::RootName;
    ///
    /// tables.put_root(RootName::User("ann", "editor"), path)?;
    /// let all = tables.snapshot()?;
    /// assert!(rt; all.objects.contains_key(path));
    /// for root in &all.roots {
    ///     assert_eq!(rt; root.label.as_str(), "gcroots/per-user/ann/editor");
    /// }
    /// ```
    pub fn snapshot(&self) -> Result<Snapshot<'_>, AllocError>
        ensures objects { IfOk result (λ it. (w : World) → HasWorld S.Store self.now w
            → it.objects.now.entries ≡ map (λ e. (e.0, outlined e.1)) (finite.entries w.objects)) }
        ensures roots { IfOk result (λ it. (w : World) → HasWorld S.Store self.now w
            → map root_view it.roots.items ≡ roots_of w) }
    {
        let roots = root_list(self.alloc, &self.outline)?;
        let objects = self.outline.objects();
        Ok(Snapshot { objects, roots })
    }

    /// The object of a path, or `None` if the path isn't valid. The archive is read from the disk, the rest from
    /// memory. Nothing changes.
    ///
    /// ```rust
    /// if let Some(object) = tables.object(path)? {
    ///     assert_eq!(rt; object.nar.len(), 128);
    ///     assert!(rt; object.summary.references().is_empty());
    /// }
    /// ```
    ///
    /// # Errors
    ///
    /// Memory was refused or the disk failed.
    pub fn object(&mut self, path: &StorePath) -> Result<Option<Object>, Failed>
        ensures { ReadsTables S.Store self.old self.new result
            (λ w o. option_map object_view o ≡ finite.get w.objects path.now) }
    {
        let Some(nar) = self.archive(path)? else {
            return Ok(None);
        };
        let Some(object) = self.outline.object(path) else {
            return Ok(None);
        };
        let summary = copied(self.alloc, object)?;
        Ok(Some(Object { nar, summary }))
    }

    /// The profile of an owner and a name, or `None` if no such profile exists. The only error is that memory was
    /// refused.
    ///
    /// ```rust
    /// assert!(rt; tables.profile("ann", "default")?.is_none());
    /// tables.put_profile("ann", "default", Some((1, path)), 1)?;
    /// assert!(rt; tables.profile("ann", "default")?.is_some_and(|profile| profile.has_generation(1)));
    /// ```
    pub fn profile(&self, owner: &str, name: &str) -> Result<Option<&Profile>, AllocError>
        ensures { IfOk result (λ p. (w : World) → HasWorld S.Store self.now w
            → option_map (λ q. profile_view q.now) p ≡ finite.get w.profiles (owner.now, name.now)) }
    {
        let key = owned(self.alloc, owner, name)?;
        Ok(self.outline.profile(&key))
    }
}
