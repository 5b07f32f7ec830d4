//! Profiles, and their generations.

ghost use Rattle.std.specs.Prelude.{◌≡◌};
ghost use Rattle.std.specs.FinMap as finite;
ghost use Rattle.tables_load_roots.specs.Loaded.{are_profiles, with_profiles};
ghost use Rattle.tables_load_roots.specs.Loading.{MayLoad, Loads};

use crate::numbers::number_of;
use crate::table::{RootTable, load_table};
use paths::is_plain_name;
use sqlite::{Alter, Connection};
use std::alloc::{AllocError, Global};
use tables_outline::Outline;
use tables_rows::generations::Generation;
use tables_rows::profiles::Profile;
use tables_rows::{Find, profiles as stored};
use tables_sql::failure::Failed;

/// The rows of profiles by themselves: each is put into the outline without generations.
impl RootTable for Profile {
    ghost use Rattle.std.specs.Prelude.{◌≡◌};
    ghost use Rattle.std.specs.List.{list_all};
    ghost use Rattle.std.specs.FinMap as finite;
    ghost use Rattle.tables_rows.specs.Entries.{current_of};
    ghost use Rattle.tables_load_roots.specs.Loaded.{is_profile, bare, bare_profiles};

    ghost passes = { λ r o. is_profile (current_of r) };

    ghost put = { λ r o. let e = current_of r in record o { profiles = finite.insert o.profiles e.0 (bare e.1) } };

    ghost fits = { λ o c. o.profiles ≡ finite.empty };

    ghost are_sound = { λ objects c. list_all is_profile (finite.entries c.profiles) };

    ghost with_rows = { λ o c. record o { profiles = bare_profiles c.profiles } };

    fn all<S: Alter>(alloc: Global, conn: &mut Connection<S>) -> Result<Vec<Profile>, Failed> {
        stored::All.find(alloc, conn)
    }

    fn take(self, alloc: Global, outline: &mut Outline) -> Result<bool, AllocError> {
        let Profile {
            owner,
            name,
            current,
        } = self;
        if !is_plain_name(owner.as_str()) || !is_plain_name(name.as_str()) {
            return Ok(false);
        }
        let Some(number) = number_of(current) else {
            return Ok(false);
        };
        outline.add_profile(alloc, (owner, name), number)?;
        Ok(true)
    }
}

/// Whether the profiles of the rows are sound, and their generations with the objects of the outline, and each profile
/// has a generation of its current number. If so, they are put into the outline.
pub fn read<S: Alter>(
    alloc: Global,
    conn: &mut Connection<S>,
    outline: &mut Outline,
) -> Result<bool, Failed>
    requires { MayLoad S.Store conn.old outline.old (λ o _. o.profiles ≡ finite.empty) }
    ensures { Loads S.Store conn.old conn.new result outline.old outline.new are_profiles with_profiles }
{
    if !load_table::<Profile, S>(alloc, conn, outline)? {
        return Ok(false);
    }
    if !load_table::<Generation, S>(alloc, conn, outline)? {
        return Ok(false);
    }
    Ok(outline.has_currents())
}
