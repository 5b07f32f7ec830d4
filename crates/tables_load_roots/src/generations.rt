//! Generations of profiles.

use crate::numbers::number_of;
use crate::table::RootTable;
use crate::targets::target_of;
use sqlite::{Alter, Connection};
use std::alloc::{AllocError, Global};
use tables_outline::Outline;
use tables_rows::generations::Generation;
use tables_rows::{Find, generations as stored};
use tables_sql::failure::Failed;

impl RootTable for Generation {
    ghost use Rattle.std.specs.Prelude.{◌≡◌};
    ghost use Rattle.std.specs.List.{list_all};
    ghost use Rattle.std.specs.FinMap as finite;
    ghost use Rattle.tables_rows.specs.Entries.{generation_in};
    ghost use Rattle.tables_world.specs.Rows.{number_in};
    ghost use Rattle.tables_world.specs.Worlds.{world_in};
    ghost use Rattle.tables_outline.specs.LoadedEntries.{with_generation};
    ghost use Rattle.tables_load_roots.specs.Loaded.{is_generation, bare_profiles};

    ghost passes = { λ r o. is_generation o.objects o.profiles (generation_in r) };

    ghost put = { λ r o. let e = generation_in r in
        record o { profiles = with_generation (e.0.0, e.0.1) (number_in e.0.2) e.1 o.profiles } };

    ghost fits = { λ o c. o.profiles ≡ bare_profiles c.profiles };

    ghost are_sound = { λ objects c. list_all (is_generation objects c.profiles) (finite.entries c.generations) };

    ghost with_rows = { λ o c. record o { profiles = (world_in c).profiles } };

    fn all<S: Alter>(alloc: Global, conn: &mut Connection<S>) -> Result<Vec<Generation>, Failed> {
        stored::All.find(alloc, conn)
    }

    fn take(self, alloc: Global, outline: &mut Outline) -> Result<bool, AllocError> {
        let Generation {
            owner,
            name,
            number,
            target,
        } = self;
        let Some(number) = number_of(number) else {
            return Ok(false);
        };
        let Some(path) = target_of(alloc, outline, target.as_str())? else {
            return Ok(false);
        };
        outline.add_generation(&(owner, name), number, path)
    }
}
