//! Making the further tables next to those that are there, inside a transaction that goes on.

ghost use Rattle.std.specs.Prelude.{[], ◌∷◌};
ghost use Rattle.tables_schema.specs.Forms.{piece, temp_root};
ghost use Rattle.tables_schema.specs.Presence.{HasFirst, HasSecond};
ghost use Rattle.tables_make.specs.NewTables.{FailsToMakeThese};
ghost use Rattle.tables_make.specs.Further.{MakesFurther};
ghost use Rattle.tables_rows.specs.Frames.{IsInsideWith};
ghost use Rattle.tables_make.specs.Commits.{StepsInside};

use crate::creation;
use sqlite::{Alter, Transaction};
use tables_schema::store_table::StoreTable;
use tables_sql::failure::Failed;

/// Makes the table of pieces and that of temporary roots next to the nine of the first schema, with no row. What the
/// tables hold is as it was, and the transaction goes on.
pub fn make_both<S: Alter>(tx: &mut Transaction<'_, S>) -> Result<(), Failed>
    requires { IsInsideWith S.Store tx.old.conn (λ db. HasFirst db.schema) }
    ensures { StepsInside S.Store tx.old.conn tx.new.conn result (MakesFurther (piece ∷ temp_root ∷ []))
        (FailsToMakeThese (piece ∷ temp_root ∷ []) ⊥ ⊥) }
{
    creation::all(tx, &[StoreTable::Piece, StoreTable::TempRoot])
}

/// Makes the table of temporary roots next to the ten of the second schema, with no row. What the tables hold is as it
/// was, and the transaction goes on.
pub fn make_temp_root<S: Alter>(tx: &mut Transaction<'_, S>) -> Result<(), Failed>
    requires { IsInsideWith S.Store tx.old.conn (λ db. HasSecond db.schema) }
    ensures { StepsInside S.Store tx.old.conn tx.new.conn result (MakesFurther (temp_root ∷ []))
        (FailsToMakeThese (temp_root ∷ []) ⊥ ⊥) }
{
    creation::all(tx, &[StoreTable::TempRoot])
}
