//! User roots, as the rows have them.

ghost use Rattle.std.specs.Prelude.{◌≡◌, IfOk};
ghost use Rattle.tables_outline.specs.Maps.{pair_bytes};

use crate::change::Change;
use sqlite::{Alter, Transaction};
use std::alloc::{AllocError, Global};
use tables_rows::{Delete, Insert, user_roots};
use tables_sql::failure::Failed;

/// Owned copies of an owner and a name.
pub(crate) fn owned(alloc: Global, owner: &str, name: &str) -> Result<(String, String), AllocError>
    ensures { IfOk result (λ owned. pair_bytes owned ≡ (owner.now, name.now)) }
{
    let owner = String::from_str(alloc, owner)?;
    let name = String::from_str(alloc, name)?;
    Ok((owner, name))
}

/// The change that sets the target of a user root, new or not.
#[derive(Drop)]
pub(crate) struct PutUserRoot<'a> {
    pub(crate) owner: &'a str,
    pub(crate) name: &'a str,
    pub(crate) target: &'a str,
}

impl<'a> Change for PutUserRoot<'a> {
    ghost use Rattle.std.specs.Prelude.{⊤};
    ghost use Rattle.std.specs.FinMap as finite;
    ghost use Rattle.tables_writes.specs.RowsPut.{UserRootRow};

    ghost change = { λ p c. record c {
      user_roots = finite.insert c.user_roots (p.owner.now, p.name.now) p.target.now;
    } };

    ghost fits = { λ p c. ⊤ };

    ghost rows = { λ p. UserRootRow (p.owner.now, p.name.now) p.target.now };

    fn write<S: Alter>(&self, tx: &mut Transaction<'_, S>) -> Result<(), Failed> {
        let (owner, name) = (self.owner, self.name);
        user_roots::At { owner, name }.delete(tx)?;
        user_roots::Row {
            owner,
            name,
            target: self.target,
        }
        .insert(tx)
    }
}

/// The change that drops a user root, if it exists.
#[derive(Drop)]
pub(crate) struct DropUserRoot<'a> {
    pub(crate) owner: &'a str,
    pub(crate) name: &'a str,
}

impl<'a> Change for DropUserRoot<'a> {
    ghost use Rattle.std.specs.Prelude.{⊤};
    ghost use Rattle.std.specs.FinMap as finite;
    ghost use Rattle.tables_rows.specs.Reasons.{NoRow};

    ghost change = { λ p c. record c { user_roots = finite.remove c.user_roots (p.owner.now, p.name.now) } };

    ghost fits = { λ p c. ⊤ };

    ghost rows = { λ p. NoRow };

    fn write<S: Alter>(&self, tx: &mut Transaction<'_, S>) -> Result<(), Failed> {
        let (owner, name) = (self.owner, self.name);
        user_roots::At { owner, name }.delete(tx)
    }
}
