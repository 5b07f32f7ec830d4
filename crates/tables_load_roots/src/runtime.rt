//! Runtime roots.

use crate::table::RootTable;
use crate::targets::target_of;
use paths::labels::is_runtime_label;
use sqlite::{Alter, Connection};
use std::alloc::{AllocError, Global};
use tables_outline::Outline;
use tables_rows::runtime::RuntimeRoot;
use tables_rows::{Find, runtime as stored};
use tables_sql::failure::Failed;

impl RootTable for RuntimeRoot {
    ghost use Rattle.std.specs.Prelude.{◌≡◌};
    ghost use Rattle.std.specs.List.{list_all};
    ghost use Rattle.std.specs.FinMap as finite;
    ghost use Rattle.tables_rows.specs.Entries.{runtime_of};
    ghost use Rattle.tables_load_roots.specs.Loaded.{is_runtime_root};

    ghost passes = { λ r o. is_runtime_root o.objects (runtime_of r) };

    ghost put = { λ r o. let e = runtime_of r in record o { runtime = finite.insert o.runtime e.0 e.1 } };

    ghost fits = { λ o c. o.runtime ≡ finite.empty };

    ghost are_sound = { λ objects c. list_all (is_runtime_root objects) (finite.entries c.runtime) };

    ghost with_rows = { λ o c. record o { runtime = c.runtime } };

    fn all<S: Alter>(alloc: Global, conn: &mut Connection<S>) -> Result<Vec<RuntimeRoot>, Failed> {
        stored::All.find(alloc, conn)
    }

    fn take(self, alloc: Global, outline: &mut Outline) -> Result<bool, AllocError> {
        let RuntimeRoot { label, target } = self;
        if !is_runtime_label(label.as_str()) {
            return Ok(false);
        }
        let Some(path) = target_of(alloc, outline, target.as_str())? else {
            return Ok(false);
        };
        outline.add_runtime(label, path)?;
        Ok(true)
    }
}
