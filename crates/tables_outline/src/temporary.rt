//! What sessions keep, in an outline.

ghost use Rattle.std.specs.Prelude.{◌≡◌};
ghost use Rattle.std.specs.FinMap as finite;
ghost use Rattle.tables_outline.specs.Maps.{temporary_bytes};
ghost use Rattle.model.specs.Effects.{is_of_session};
ghost use Rattle.tables_outline.specs.Changes.{PutsOver};
ghost use Rattle.tables_outline.specs.Temporary.{entries_of_session, unkept, entries_without_session};

use crate::outline::Outline;
use paths::StorePath;
use std::alloc::AllocError;

/// Whether it is this session that keeps it.
fn is_of_session(kept: &(String, u32, StorePath), owner: &str, session: u32) -> bool
    ensures { result ≡ is_of_session owner.now session (temporary_bytes kept.now) }
{
    kept.0.as_str() == owner && kept.1 == session
}

impl Outline {
    /// Puts a path that a session of an owner keeps, and answers whether it kept it already. If memory is refused,
    /// nothing changes.
    pub fn put_temporary(&mut self, kept: (String, u32, StorePath)) -> Result<bool, AllocError>
        ensures { PutsOver self.old self.new result
            (record self.old { temporary = finite.insert self.old.temporary (temporary_bytes kept) tt })
            (finite.contains_key self.old.temporary (temporary_bytes kept)) }
    {
        let is_new = self.temporary.insert(kept)?;
        Ok(!is_new)
    }

    /// Keeps a path that was put if the session kept it before, and removes it otherwise. Allocates no memory.
    pub fn undo_temporary(&mut self, kept: &(String, u32, StorePath), had: bool)
        ensures { self.new ≡ record self.old { temporary = unkept self.old.temporary (temporary_bytes kept.now) had } }
    {
        if !had {
            self.temporary.remove(kept);
        }
    }

    /// How many paths a session of an owner keeps.
    pub fn session_len(&self, owner: &str, session: u32) -> usize
        ensures { result ≡ finite.len (entries_of_session owner.now session self.now.temporary) }
    {
        // Owners, sessions and paths rise.
        let _count = self.temporary.len();
        self.temporary
            .iter()
            .filter(|kept| is_of_session(kept, owner, session))
            .count()
    }

    /// Drops all that a session of an owner keeps, and answers how many paths that was. It takes no memory.
    pub fn end_session(&mut self, owner: &str, session: u32) -> usize
        ensures done { self.new
            ≡ record self.old { temporary = entries_without_session owner.now session self.old.temporary } }
        ensures count { result ≡ finite.len (entries_of_session owner.now session self.old.temporary) }
    {
        let count = self.session_len(owner, session);
        self.temporary
            .retain(|kept| !is_of_session(kept, owner, session));
        count
    }
}
