//! Objects, as the rows have them.

ghost use Rattle.std.specs.Prelude.{◌≡◌, length, map, string_bytes};
ghost use Rattle.std.specs.List.{zip};
ghost use Rattle.std.specs.FinMap as finite;
ghost use Rattle.tables_writes.specs.Rewritten.{AreFree, put_references, put_outputs};
ghost use Rattle.tables_rows.specs.Reasons.{RowsOf};
ghost use Rattle.tables_writes.specs.RowsPut.{ReferenceRow, OutputRow};
ghost use Rattle.tables_rows.specs.Frames.{Writes};
ghost use Rattle.tables_writes.specs.Writes.{IsOpenInside};

use crate::archive_pieces::put_pieces;
use crate::change::Change;
use crate::texts::Texts;
use paths::StorePath;
use sqlite::{Alter, Transaction};
use streams::Pieces;
use tables_outline::Summary;
use tables_rows::{Insert, objects, outputs, references};
use tables_sql::failure::Failed;

/// Adds a row for each reference of a path. The references are distinct; the path has none of these rows yet.
pub(crate) fn put_references<S: Alter>(
    tx: &mut Transaction<'_, S>,
    base: &str,
    targets: &[StorePath],
) -> Result<(), Failed>
    requires { IsOpenInside S.Store tx.old.conn (λ c. AreFree c.refs (map (λ t. (base.now, t)) targets.now)) }
    ensures { Writes S.Store tx.old.conn tx.new.conn result
        (λ c. record c { refs = put_references base.now targets.now c.refs })
        (RowsOf (ReferenceRow base.now) targets.now) }
{
    'targets: for target in targets {
        let target = target.as_str();
        references::Row { base, target }.insert(tx)?;
    }
    Ok(())
}

/// Adds a row for each output of a path: `outputs[i]` belongs to `names[i]`. The names are distinct; the path has none
/// of these rows yet.
pub(crate) fn put_outputs<S: Alter>(
    tx: &mut Transaction<'_, S>,
    base: &str,
    names: &[String],
    outputs: &[StorePath],
) -> Result<(), Failed>
    requires frame { IsOpenInside S.Store tx.old.conn
        (λ c. AreFree c.outs (map (λ e. (base.now, e.0)) (zip (map string_bytes names.now) outputs.now))) }
    requires count { length outputs.now ≡ length names.now }
    ensures { Writes S.Store tx.old.conn tx.new.conn result
        (λ c. record c { outs = put_outputs base.now (zip (map string_bytes names.now) outputs.now) c.outs })
        (RowsOf (OutputRow base.now) (zip (map string_bytes names.now) outputs.now)) }
{
    'outputs: for i in 0..names.len() {
        outputs::Row {
            base,
            name: names[i].as_str(),
            target: outputs[i].as_str(),
        }
        .insert(tx)?;
    }
    Ok(())
}

/// The change that adds an object, with its references, its outputs and the pieces of its archive.
#[derive(Drop)]
pub(crate) struct InsertObject<'a> {
    pub(crate) base: &'a str,
    pub(crate) nar: &'a Pieces,
    pub(crate) object: &'a Summary,
    pub(crate) texts: &'a Texts,
}

impl<'a> Change for InsertObject<'a> {
    ghost use Rattle.tables_rows.specs.Entries.{stored};
    ghost use Rattle.tables_world.specs.Pieces.{row_part, further_pieces};
    ghost use Rattle.tables_writes.specs.Rewritten.{HasNoObject, put_object};
    ghost use Rattle.tables_writes.specs.RowsPut.{ObjectRows};

    ghost change = { λ o c. put_object o.base.now
        (stored (row_part o.nar.now) o.object.now.hash o.texts.now.deriver o.texts.now.ca)
        (finite.keys o.object.now.references) (finite.entries o.object.now.outputs) (further_pieces o.nar.now) c };

    ghost fits = { λ o c. HasNoObject o.base.now c };

    ghost rows = { λ o. ObjectRows o.base.now
        (stored (row_part o.nar.now) o.object.now.hash o.texts.now.deriver o.texts.now.ca)
        (finite.keys o.object.now.references) (finite.entries o.object.now.outputs) (further_pieces o.nar.now) };

    fn write<S: Alter>(&self, tx: &mut Transaction<'_, S>) -> Result<(), Failed> {
        objects::Row {
            base: self.base,
            nar: self.nar.first(),
            hash: self.object.hash(),
            deriver: &self.texts.deriver,
            ca: &self.texts.ca,
        }
        .insert(tx)?;
        put_references(tx, self.base, self.object.references())?;
        put_outputs(tx, self.base, self.object.names(), self.object.outputs())?;
        put_pieces(tx, self.base, self.nar)
    }
}
