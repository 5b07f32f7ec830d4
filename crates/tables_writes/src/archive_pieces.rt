//! Archives, as the rows have them: cut in pieces of 65,536 bytes, of which the last has 1 to 65,536.

ghost use Rattle.std.specs.Prelude.{map};
ghost use Rattle.tables_world.specs.Pieces.{further_pieces};
ghost use Rattle.tables_writes.specs.Rewritten.{AreFree, put_pieces};
ghost use Rattle.tables_rows.specs.Reasons.{RowsOf};
ghost use Rattle.tables_rows.specs.ObjectRows.{PieceRow};
ghost use Rattle.tables_rows.specs.Frames.{MayCut, Writes};

use sqlite::{Alter, Transaction};
use streams::Pieces;
use tables_rows::{Insert, pieces};
use tables_sql::failure::Failed;

/// Adds a row for each piece of an archive after the first, numbered from 1. The path has none of these rows yet.
pub(crate) fn put_pieces<S: Alter>(
    tx: &mut Transaction<'_, S>,
    base: &str,
    nar: &Pieces,
) -> Result<(), Failed>
    requires { MayCut S.Store tx.old.conn
        (λ c. AreFree c.pieces (map (λ e. (base.now, e.0)) (further_pieces nar.now))) }
    ensures { Writes S.Store tx.old.conn tx.new.conn result
        (λ c. record c { pieces = put_pieces base.now (further_pieces nar.now) c.pieces })
        (RowsOf (PieceRow base.now) (further_pieces nar.now)) }
{
    let count = nar.count();
    'pieces: for number in 1..u32::MAX {
        let place = number as usize;
        if place >= count {
            return Ok(());
        }
        pieces::Row {
            base,
            number,
            bytes: nar.piece(place),
        }
        .insert(tx)?;
    }
    // No memory holds that many.
    Err(Failed::Memory)
}
