//! Setting and dropping permanent and user roots by their names.

ghost use Rattle.tables_writes.specs.Entries.{with_root, without_root};
ghost use Rattle.tables_writes.specs.Writes.{StaysSound, ChangesTables};
ghost use Rattle.tables_rows.specs.Reasons.{NoRow};
ghost use Rattle.tables_writes.specs.RowsPut.{RootRow};

use crate::tables::Tables;
use paths::StorePath;
use sqlite::Alter;
use tables_sql::failure::Failed;

/// The name of a root that stays until it is dropped.
#[derive(Clone, Copy)]
pub enum RootName<'a> {
    /// A permanent root, by its name.
    Permanent(&'a str),
    /// A root of a user, by its owner and its name.
    User(&'a str, &'a str),
}

impl<S: Alter> Tables<S> {
    /// Sets a root, new or not. The caller ensures that the world is sound afterwards.
    ///
    /// ```rust
    /// use tables::RootName;
    ///
    /// tables.put_root(RootName::User("ann", "editor"), path)?;
    /// assert_eq!(rt; tables.outline().user_roots().len(), 1);
    /// ```
    ///
    /// # Errors
    ///
    /// Memory was refused, a row is too large, or the disk failed, and then nothing has changed.
    pub fn put_root(&mut self, name: RootName<'_>, target: &StorePath) -> Result<(), Failed>
        requires { StaysSound S.Store self.old (with_root name target.now) }
        ensures { ChangesTables S.Store self.old self.new result
            (with_root name.entry target.now)
            (RootRow name.entry target.now) }
    {
        match name {
            RootName::Permanent(name) => self.put_permanent(name, target),
            RootName::User(owner, name) => self.put_user_root(owner, name, target),
        }
    }

    /// Drops a root, if it exists. The caller ensures that the world is sound afterwards.
    ///
    /// ```rust
    /// use tables::RootName;
    ///
    /// tables.put_root(RootName::Permanent("system"), path)?;
    /// tables.drop_root(RootName::Permanent("system"))?;
    /// assert!(rt; tables.outline().permanent_roots().is_empty());
    /// ```
    ///
    /// # Errors
    ///
    /// Memory was refused or the disk failed, and then nothing has changed.
    pub fn drop_root(&mut self, name: RootName<'_>) -> Result<(), Failed>
        requires { StaysSound S.Store self.old (without_root name) }
        ensures { ChangesTables S.Store self.old self.new result (without_root name.entry) NoRow }
    {
        match name {
            RootName::Permanent(name) => self.drop_permanent(name),
            RootName::User(owner, name) => self.drop_user_root(owner, name),
        }
    }
}
