//! Setting and dropping roots, one transaction a call. The caller ensures that the world is sound after each call. A
//! call fails if memory runs out, a row is too large or the disk fails; then nothing has changed.

ghost use Rattle.std.specs.Prelude.{map};
ghost use Rattle.model.specs.World.{pair_cmp};
ghost use Rattle.model.specs.Effects.{with_permanent, without_permanent, with_user_root, without_user_root};
ghost use Rattle.model.specs.Effects.{with_runtime};
ghost use Rattle.tables_outline.specs.Maps.{labelled_bytes, seen_set};
ghost use Rattle.tables_writes.specs.Writes.{StaysSound, ChangesTables};
ghost use Rattle.tables_rows.specs.Reasons.{NoRow, RowsOf};
ghost use Rattle.tables_writes.specs.RowsPut.{PermanentRow, UserRootRow, RuntimeRow};

use crate::change;
use crate::permanent::{DropPermanent, PutPermanent};
use crate::runtime::ReplaceRuntime;
use crate::tables::Tables;
use crate::user_roots::{DropUserRoot, PutUserRoot, owned};
use paths::StorePath;
use sqlite::Alter;
use std::collections::BTreeSet;
use tables_sql::failure::Failed;

impl<S: Alter> Tables<S> {
    /// Sets a permanent root, new or not.
    ///
    /// ```rust
    /// tables.put_permanent("system", path)?;
    /// assert_eq!(rt; tables.outline().permanent_roots().get("system"), Some(path));
    /// ```
    pub fn put_permanent(&mut self, name: &str, target: &StorePath) -> Result<(), Failed>
        requires sound { StaysSound S.Store self.old (λ w. with_permanent w name.now target.now) }
        ensures { ChangesTables S.Store self.old self.new result
            (λ w. with_permanent w name.now target.now)
            (PermanentRow name.now target.now) }
    {
        let key = String::from_str(self.alloc, name)?;
        let value = target.clone()?;
        let had = self.outline.put_permanent(key, value)?;
        let put = PutPermanent {
            name,
            target: target.as_str(),
        };
        match change::commit(&mut self.connection, &put) {
            Ok(()) => {
                drop(had);
                Ok(())
            }
            Err(failure) => {
                self.outline.undo_permanent(name, had);
                Err(failure)
            }
        }
    }

    /// Drops a permanent root, if it exists.
    ///
    /// ```rust
    /// tables.put_permanent("system", path)?;
    /// tables.drop_permanent("system")?;
    /// assert!(rt; tables.outline().permanent_roots().is_empty());
    /// ```
    pub fn drop_permanent(&mut self, name: &str) -> Result<(), Failed>
        requires sound { StaysSound S.Store self.old (λ w. without_permanent w name.now) }
        ensures { ChangesTables S.Store self.old self.new result (λ w. without_permanent w name.now) NoRow }
    {
        change::commit(&mut self.connection, &DropPermanent { name })?;
        self.outline.drop_permanent(name);
        Ok(())
    }

    /// Sets a user root, new or not.
    ///
    /// ```rust
    /// tables.put_user_root("ann", "editor", path)?;
    /// assert_eq!(rt; tables.outline().user_roots().len(), 1);
    /// ```
    pub fn put_user_root(
        &mut self,
        owner: &str,
        name: &str,
        target: &StorePath,
    ) -> Result<(), Failed>
        requires sound { StaysSound S.Store self.old (λ w. with_user_root w (owner.now, name.now) target.now) }
        ensures { ChangesTables S.Store self.old self.new result
            (λ w. with_user_root w (owner.now, name.now) target.now)
            (UserRootRow (owner.now, name.now) target.now) }
    {
        let key = owned(self.alloc, owner, name)?;
        let again = owned(self.alloc, owner, name)?;
        let value = target.clone()?;
        let had = self.outline.put_user_root(key, value)?;
        let put = PutUserRoot {
            owner,
            name,
            target: target.as_str(),
        };
        match change::commit(&mut self.connection, &put) {
            Ok(()) => {
                drop(had);
                Ok(())
            }
            Err(failure) => {
                self.outline.undo_user_root(&again, had);
                Err(failure)
            }
        }
    }

    /// Drops a user root, if it exists.
    ///
    /// ```rust
    /// tables.put_user_root("ann", "editor", path)?;
    /// tables.drop_user_root("ann", "editor")?;
    /// assert!(rt; tables.outline().user_roots().is_empty());
    /// ```
    pub fn drop_user_root(&mut self, owner: &str, name: &str) -> Result<(), Failed>
        requires sound { StaysSound S.Store self.old (λ w. without_user_root w (owner.now, name.now)) }
        ensures { ChangesTables S.Store self.old self.new result
            (λ w. without_user_root w (owner.now, name.now))
            NoRow }
    {
        let key = owned(self.alloc, owner, name)?;
        change::commit(&mut self.connection, &DropUserRoot { owner, name })?;
        self.outline.drop_user_root(&key);
        Ok(())
    }

    /// Replaces all runtime roots by `roots`, each a label and a target.
    ///
    /// ```rust
    /// use std::collections::BTreeSet;
    ///
    /// let mut roots = BTreeSet::new(alloc);
    /// roots.insert((String::from_str(alloc, "/proc/1/exe")?, path.clone()?))?;
    /// tables.replace_runtime(roots)?;
    /// assert_eq!(rt; tables.outline().runtime_roots().len(), 1);
    /// ```
    pub fn replace_runtime(&mut self, roots: BTreeSet<(String, StorePath)>) -> Result<(), Failed>
        requires sound { StaysSound S.Store self.old
            (λ w. with_runtime w (seen_set pair_cmp labelled_bytes roots.keys)) }
        ensures { ChangesTables S.Store self.old self.new result
            (λ w. with_runtime w (seen_set pair_cmp labelled_bytes roots.keys))
            (RowsOf RuntimeRow (map labelled_bytes roots.keys)) }
    {
        match change::commit(&mut self.connection, &ReplaceRuntime { roots: &roots }) {
            Ok(()) => {
                self.outline.replace_runtime(roots);
                Ok(())
            }
            Err(failure) => {
                drop(roots);
                Err(failure)
            }
        }
    }
}
