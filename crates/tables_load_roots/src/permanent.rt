//! Permanent roots.

use crate::table::RootTable;
use crate::targets::target_of;
use paths::is_plain_name;
use sqlite::{Alter, Connection};
use std::alloc::{AllocError, Global};
use tables_outline::Outline;
use tables_rows::permanent::PermanentRoot;
use tables_rows::{Find, permanent as stored};
use tables_sql::failure::Failed;

impl RootTable for PermanentRoot {
    ghost use Rattle.std.specs.Prelude.{◌≡◌};
    ghost use Rattle.std.specs.List.{list_all};
    ghost use Rattle.std.specs.FinMap as finite;
    ghost use Rattle.tables_rows.specs.Entries.{permanent_of};
    ghost use Rattle.tables_load_roots.specs.Loaded.{is_permanent_root};

    ghost passes = { λ r o. is_permanent_root o.objects (permanent_of r) };

    ghost put = { λ r o. let e = permanent_of r in record o { permanent = finite.insert o.permanent e.0 e.1 } };

    ghost fits = { λ o c. o.permanent ≡ finite.empty };

    ghost are_sound = { λ objects c. list_all (is_permanent_root objects) (finite.entries c.permanent) };

    ghost with_rows = { λ o c. record o { permanent = c.permanent } };

    fn all<S: Alter>(
        alloc: Global,
        conn: &mut Connection<S>,
    ) -> Result<Vec<PermanentRoot>, Failed> {
        stored::All.find(alloc, conn)
    }

    fn take(self, alloc: Global, outline: &mut Outline) -> Result<bool, AllocError> {
        let PermanentRoot { name, target } = self;
        if !is_plain_name(name.as_str()) {
            return Ok(false);
        }
        let Some(path) = target_of(alloc, outline, target.as_str())? else {
            return Ok(false);
        };
        outline.put_permanent(name, path)?;
        Ok(true)
    }
}
