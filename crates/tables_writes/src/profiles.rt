//! Profiles, as the rows have them.

ghost use Rattle.std.specs.Prelude.{pos};
ghost use Rattle.std.specs.FinMap as finite;
ghost use Rattle.tables_writes.specs.RowsPut.{ProfileRow};
ghost use Rattle.tables_rows.specs.Frames.{IsInside};
ghost use Rattle.tables_rows.specs.Frames.{Writes};

use crate::change::Change;
use sqlite::{Alter, Transaction};
use tables_rows::{Delete, Insert, generations, profiles};
use tables_sql::failure::Failed;

/// Sets the current number of a profile, new or not.
pub(crate) fn put_current<S: Alter>(
    tx: &mut Transaction<'_, S>,
    owner: &str,
    name: &str,
    current: u32,
) -> Result<(), Failed>
    requires under_way { IsInside S.Store tx.old.conn }
    ensures { Writes S.Store tx.old.conn tx.new.conn result
        (λ c. record c { profiles = finite.insert c.profiles (owner.now, name.now) (pos current) })
        (ProfileRow (owner.now, name.now) current) }
{
    profiles::At { owner, name }.delete(tx)?;
    profiles::Row {
        owner,
        name,
        current,
    }
    .insert(tx)
}

/// The change that sets the current number of a profile.
#[derive(Drop)]
pub(crate) struct Switch<'a> {
    pub(crate) owner: &'a str,
    pub(crate) name: &'a str,
    pub(crate) number: u32,
}

impl<'a> Change for Switch<'a> {
    ghost use Rattle.std.specs.Prelude.{⊤, pos};
    ghost use Rattle.std.specs.FinMap as finite;

    ghost change = { λ p c. record c { profiles = finite.insert c.profiles (p.owner.now, p.name.now) (pos p.number) } };

    ghost fits = { λ p c. ⊤ };

    ghost rows = { λ p. ProfileRow (p.owner.now, p.name.now) p.number };

    fn write<S: Alter>(&self, tx: &mut Transaction<'_, S>) -> Result<(), Failed> {
        put_current(tx, self.owner, self.name, self.number)
    }
}

/// The change that deletes a generation, if it exists.
#[derive(Drop)]
pub(crate) struct DropGeneration<'a> {
    pub(crate) owner: &'a str,
    pub(crate) name: &'a str,
    pub(crate) number: u32,
}

impl<'a> Change for DropGeneration<'a> {
    ghost use Rattle.std.specs.Prelude.{⊤, ◌&&◌, not, pos};
    ghost use Rattle.std.specs.Ordering.{eq_by_cmp, int_cmp};
    ghost use Rattle.std.specs.FinMap as finite;
    ghost use Rattle.paths.specs.Root.{bytes_cmp};
    ghost use Rattle.tables_rows.specs.Reasons.{NoRow};

    ghost change = { λ p c. record c {
      generations = finite.retain_keys c.generations
          (λ k. not (eq_by_cmp bytes_cmp k.0 p.owner.now
          && (eq_by_cmp bytes_cmp k.1 p.name.now && eq_by_cmp int_cmp k.2 (pos p.number))));
    } };

    ghost fits = { λ p c. ⊤ };

    ghost rows = { λ p. NoRow };

    fn write<S: Alter>(&self, tx: &mut Transaction<'_, S>) -> Result<(), Failed> {
        generations::At {
            owner: self.owner,
            name: self.name,
            number: self.number,
        }
        .delete(tx)
    }
}

/// The change that sets the target of a generation and the current number of a profile. Generation and profile may be
/// new.
#[derive(Drop)]
pub(crate) struct PutGeneration<'a> {
    pub(crate) owner: &'a str,
    pub(crate) name: &'a str,
    pub(crate) number: u32,
    pub(crate) target: &'a str,
    pub(crate) current: u32,
}

impl<'a> Change for PutGeneration<'a> {
    ghost use Rattle.std.specs.Prelude.{⊤, pos};
    ghost use Rattle.std.specs.FinMap as finite;
    ghost use Rattle.tables_writes.specs.Rewritten.{put_generation};
    ghost use Rattle.tables_writes.specs.RowsPut.{GenerationRows};

    ghost change = { λ p c. put_generation (p.owner.now, p.name.now) p.number p.target.now p.current c };

    ghost fits = { λ p c. ⊤ };

    ghost rows = { λ p. GenerationRows (p.owner.now, p.name.now) p.number p.target.now p.current };

    fn write<S: Alter>(&self, tx: &mut Transaction<'_, S>) -> Result<(), Failed> {
        let (owner, name, number) = (self.owner, self.name, self.number);
        put_current(tx, self.owner, self.name, self.current)?;
        generations::At {
            owner,
            name,
            number,
        }
        .delete(tx)?;
        generations::Row {
            owner,
            name,
            number,
            target: self.target,
        }
        .insert(tx)
    }
}
