//! Temporary roots: the paths that sessions keep.

use crate::numbers::session_of;
use crate::table::RootTable;
use crate::targets::target_of;
use paths::is_plain_name;
use sqlite::{Alter, Connection};
use std::alloc::{AllocError, Global};
use tables_outline::Outline;
use tables_rows::temp_roots::TempRoot;
use tables_rows::{Find, temp_roots as stored};
use tables_sql::failure::Failed;

impl RootTable for TempRoot {
    ghost use Rattle.std.specs.Prelude.{◌≡◌};
    ghost use Rattle.std.specs.FinMap as finite;
    ghost use Rattle.tables_schema.specs.Forms.{temp_root};
    ghost use Rattle.tables_sql.specs.Calls.{HasFurther};
    ghost use Rattle.tables_rows.specs.Entries.{temp_root_of};
    ghost use Rattle.tables_world.specs.Rows.{temporary_in};
    ghost use Rattle.tables_world.specs.Worlds.{world_in};
    ghost use Rattle.tables_load_roots.specs.Loaded.{is_temporary_root, are_temporary};

    ghost passes = { λ r o. is_temporary_root o.objects (temp_root_of r) };

    ghost put = { λ r o. let k = temporary_in (temp_root_of r).0 in
        record o { temporary = finite.insert o.temporary k tt } };

    ghost needs = { λ db. HasFurther db temp_root };

    ghost fits = { λ o c. o.temporary ≡ finite.empty };

    ghost are_sound = { are_temporary };

    ghost with_rows = { λ o c. record o { temporary = (world_in c).temporary } };

    fn all<S: Alter>(alloc: Global, conn: &mut Connection<S>) -> Result<Vec<TempRoot>, Failed> {
        stored::All.find(alloc, conn)
    }

    fn take(self, alloc: Global, outline: &mut Outline) -> Result<bool, AllocError> {
        let TempRoot {
            owner,
            session,
            target,
        } = self;
        if !is_plain_name(owner.as_str()) {
            return Ok(false);
        }
        let Some(number) = session_of(session) else {
            return Ok(false);
        };
        let Some(path) = target_of(alloc, outline, target.as_str())? else {
            return Ok(false);
        };
        outline.put_temporary((owner, number, path))?;
        Ok(true)
    }
}
