//! User roots.

use crate::table::RootTable;
use crate::targets::target_of;
use paths::is_plain_name;
use sqlite::{Alter, Connection};
use std::alloc::{AllocError, Global};
use tables_outline::Outline;
use tables_rows::user_roots::UserRoot;
use tables_rows::{Find, user_roots as stored};
use tables_sql::failure::Failed;

impl RootTable for UserRoot {
    ghost use Rattle.std.specs.Prelude.{◌≡◌};
    ghost use Rattle.std.specs.List.{list_all};
    ghost use Rattle.std.specs.FinMap as finite;
    ghost use Rattle.tables_rows.specs.Entries.{user_root_of};
    ghost use Rattle.tables_load_roots.specs.Loaded.{is_user_root};

    ghost passes = { λ r o. is_user_root o.objects (user_root_of r) };

    ghost put = { λ r o. let e = user_root_of r in record o { user_roots = finite.insert o.user_roots e.0 e.1 } };

    ghost fits = { λ o c. o.user_roots ≡ finite.empty };

    ghost are_sound = { λ objects c. list_all (is_user_root objects) (finite.entries c.user_roots) };

    ghost with_rows = { λ o c. record o { user_roots = c.user_roots } };

    fn all<S: Alter>(alloc: Global, conn: &mut Connection<S>) -> Result<Vec<UserRoot>, Failed> {
        stored::All.find(alloc, conn)
    }

    fn take(self, alloc: Global, outline: &mut Outline) -> Result<bool, AllocError> {
        let UserRoot {
            owner,
            name,
            target,
        } = self;
        if !is_plain_name(owner.as_str()) || !is_plain_name(name.as_str()) {
            return Ok(false);
        }
        let Some(path) = target_of(alloc, outline, target.as_str())? else {
            return Ok(false);
        };
        outline.put_user_root((owner, name), path)?;
        Ok(true)
    }
}
