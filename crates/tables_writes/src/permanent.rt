//! Permanent roots, as the rows have them.

ghost use Rattle.std.specs.FinMap as finite;
ghost use Rattle.tables_rows.specs.Frames.{IsInside};
ghost use Rattle.tables_rows.specs.Frames.{Writes};
ghost use Rattle.tables_writes.specs.RowsPut.{PermanentRow};

use crate::change::Change;
use sqlite::{Alter, Transaction};
use tables_rows::{Delete, Insert, permanent};
use tables_sql::failure::Failed;

/// Sets a permanent root, in place of that of its name, if one exists.
fn replace<S: Alter>(tx: &mut Transaction<'_, S>, name: &str, target: &str) -> Result<(), Failed>
    requires { IsInside S.Store tx.old.conn }
    ensures { Writes S.Store tx.old.conn tx.new.conn result
        (λ c. record c { permanent = finite.insert c.permanent name.now target.now })
        (PermanentRow name.now target.now) }
{
    permanent::Of { name }.delete(tx)?;
    permanent::Row { name, target }.insert(tx)
}

/// The change that sets the target of a permanent root, new or not.
#[derive(Drop)]
pub(crate) struct PutPermanent<'a> {
    pub(crate) name: &'a str,
    pub(crate) target: &'a str,
}

impl<'a> Change for PutPermanent<'a> {
    ghost use Rattle.std.specs.Prelude.{⊤};
    ghost use Rattle.std.specs.FinMap as finite;
    ghost use Rattle.tables_writes.specs.RowsPut.{PermanentRow};

    ghost change = { λ p c. record c { permanent = finite.insert c.permanent p.name.now p.target.now } };

    ghost fits = { λ p c. ⊤ };

    ghost rows = { λ p. PermanentRow p.name.now p.target.now };

    fn write<S: Alter>(&self, tx: &mut Transaction<'_, S>) -> Result<(), Failed> {
        replace(tx, self.name, self.target)
    }
}

/// The change that drops a permanent root, if it exists.
#[derive(Drop)]
pub(crate) struct DropPermanent<'a> {
    pub(crate) name: &'a str,
}

impl<'a> Change for DropPermanent<'a> {
    ghost use Rattle.std.specs.Prelude.{⊤};
    ghost use Rattle.std.specs.FinMap as finite;
    ghost use Rattle.tables_rows.specs.Reasons.{NoRow};

    ghost change = { λ p c. record c { permanent = finite.remove c.permanent p.name.now } };

    ghost fits = { λ p c. ⊤ };

    ghost rows = { λ p. NoRow };

    fn write<S: Alter>(&self, tx: &mut Transaction<'_, S>) -> Result<(), Failed> {
        permanent::Of { name: self.name }.delete(tx)
    }
}
