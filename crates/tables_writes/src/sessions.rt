//! Temporary roots, as the rows have them.
//!
//! Adding the paths that sessions keep, and ending sessions, one transaction a call. The caller ensures that the world
//! is sound after each call. A call fails if memory runs out, a row is too large or the disk fails; then nothing has
//! changed.

ghost use Rattle.std.specs.Prelude.{◌≡◌, IfOk};
ghost use Rattle.std.specs.FinMap as finite;
ghost use Rattle.model.specs.Effects.{with_temporary};
ghost use Rattle.tables_outline.specs.Maps.{temporary_bytes};
ghost use Rattle.tables_outline.specs.Temporary.{entries_of_session, entries_without_session};
ghost use Rattle.tables_writes.specs.Writes.{StaysSound, ChangesTables, CommitsChange, FailsToChange};
ghost use Rattle.tables_rows.specs.Reasons.{NoRow};
ghost use Rattle.tables_writes.specs.RowsPut.{TemporaryRow};
ghost use Rattle.tables_writes.specs.Temporary.{keeps};

use crate::change;
use crate::change::Change;
use crate::tables::Tables;
use paths::StorePath;
use sqlite::{Alter, Transaction};
use std::alloc::{AllocError, Global};
use tables_rows::{Delete, Insert, temp_roots};
use tables_sql::failure::Failed;

/// Owned copies of an owner and a target, with the session's number: the form of the outline.
fn temporary_entry(
    alloc: Global,
    owner: &str,
    session: u32,
    target: &StorePath,
) -> Result<(String, u32, StorePath), AllocError>
    ensures { IfOk result (λ kept. temporary_bytes kept ≡ keeps owner.now session target.now) }
{
    let owner = String::from_str(alloc, owner)?;
    let target = target.clone()?;
    Ok((owner, session, target))
}

/// The change that adds a path to those that a session keeps, new or not.
#[derive(Drop)]
struct PutTemporary<'a> {
    owner: &'a str,
    session: u32,
    target: &'a str,
}

impl<'a> Change for PutTemporary<'a> {
    ghost use Rattle.std.specs.Prelude.{⊤, pos};
    ghost use Rattle.std.specs.FinMap as finite;
    ghost use Rattle.tables_writes.specs.RowsPut.{TemporaryRow};

    ghost change = { λ p c. record c {
      temp_roots = finite.insert c.temp_roots (p.owner.now, pos p.session, p.target.now) tt;
    } };

    ghost fits = { λ p c. ⊤ };

    ghost rows = { λ p. TemporaryRow (keeps p.owner.now p.session p.target.now) };

    fn write<S: Alter>(&self, tx: &mut Transaction<'_, S>) -> Result<(), Failed> {
        let row = temp_roots::Row {
            owner: self.owner,
            session: self.session,
            target: self.target,
        };
        row.delete(tx)?;
        row.insert(tx)
    }
}

/// The change that ends a session: deletes the rows of the paths that the session keeps.
#[derive(Drop)]
struct EndSession<'a> {
    owner: &'a str,
    session: u32,
}

impl<'a> Change for EndSession<'a> {
    ghost use Rattle.std.specs.Prelude.{⊤, pos, not, ◌&&◌};
    ghost use Rattle.std.specs.Ordering.{eq_by_cmp, int_cmp};
    ghost use Rattle.std.specs.FinMap as finite;
    ghost use Rattle.tables_sql.specs.Contents.{texts_cmp};
    ghost use Rattle.tables_rows.specs.Reasons.{NoRow};

    ghost change = { λ p c. record c {
      temp_roots = finite.retain_keys c.temp_roots
          (λ k. not (eq_by_cmp texts_cmp k.0 p.owner.now && eq_by_cmp int_cmp k.1 (pos p.session)));
    } };

    ghost fits = { λ p c. ⊤ };

    ghost rows = { λ p. NoRow };

    fn write<S: Alter>(&self, tx: &mut Transaction<'_, S>) -> Result<(), Failed> {
        let (owner, session) = (self.owner, self.session);
        temp_roots::Of { owner, session }.delete(tx)
    }
}

impl<S: Alter> Tables<S> {
    /// Adds a path to those that a session of an owner keeps. It may be one of them already.
    ///
    /// ```rust
    /// tables.add_temp("ann", 7, path)?;
    /// assert_eq!(rt; tables.outline().temporary_roots().len(), 1);
    /// ```
    pub fn add_temp(&mut self, owner: &str, session: u32, target: &StorePath) -> Result<(), Failed>
        requires sound { StaysSound S.Store self.old (λ w. with_temporary w (keeps owner.now session target.now)) }
        ensures { ChangesTables S.Store self.old self.new result
            (λ w. with_temporary w (keeps owner.now session target.now))
            (TemporaryRow (keeps owner.now session target.now)) }
    {
        let key = temporary_entry(self.alloc, owner, session, target)?;
        let again = temporary_entry(self.alloc, owner, session, target)?;
        let had = self.outline.put_temporary(key)?;
        let put = PutTemporary {
            owner,
            session,
            target: target.as_str(),
        };
        match change::commit(&mut self.connection, &put) {
            Ok(()) => Ok(()),
            Err(failure) => {
                self.outline.undo_temporary(&again, had);
                Err(failure)
            }
        }
    }

    /// Ends a session of an owner, and deletes the roots of the paths that the session kept. Returns how many they
    /// were, which may be 0.
    ///
    /// ```rust
    /// tables.add_temp("ann", 7, path)?;
    /// assert_eq!(rt; tables.end_session("ann", 7)?, 1);
    /// assert_eq!(rt; tables.end_session("ann", 7)?, 0);
    /// ```
    pub fn end_session(&mut self, owner: &str, session: u32) -> Result<usize, Failed>
        requires sound { StaysSound S.Store self.old
            (λ w. record w { temporary = entries_without_session owner.now session w.temporary }) }
        ensures count { IfOk result
            (λ n. n ≡ finite.len (entries_of_session owner.now session self.old.outline.temporary)) }
        ensures frame { CommitsChange S.Store self.old self.new result
            (λ w. record w { temporary = entries_without_session owner.now session w.temporary }) }
        ensures cause { FailsToChange S.Store self.old self.new result NoRow }
    {
        change::commit(&mut self.connection, &EndSession { owner, session })?;
        Ok(self.outline.end_session(owner, session))
    }
}
