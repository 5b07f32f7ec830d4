//! Roots in an outline.

ghost use Rattle.std.specs.Prelude.{◌≡◌, IsTrue, string_bytes};
ghost use Rattle.std.specs.FinMap as finite;
ghost use Rattle.model.specs.World.{pair_cmp};
ghost use Rattle.tables_outline.specs.Changes.{PutsOver};
ghost use Rattle.tables_outline.specs.Maps.{pair_bytes, labelled_bytes, seen_set, unput};

use crate::outline::Outline;
use paths::StorePath;
use std::alloc::AllocError;
use std::collections::BTreeSet;

impl Outline {
    /// Whether there is a permanent root of this name.
    pub fn has_permanent(&self, name: &str) -> bool
        ensures { result ≡ finite.contains_key self.now.permanent name.now }
    {
        self.permanent.contains_key(name)
    }

    /// Puts a permanent root, and answers the target that it had. If memory is refused, nothing changes.
    pub fn put_permanent(
        &mut self,
        name: String,
        target: StorePath,
    ) -> Result<Option<StorePath>, AllocError>
        ensures { PutsOver self.old self.new result
            (record self.old { permanent = finite.insert self.old.permanent (string_bytes name) target })
            (finite.get self.old.permanent (string_bytes name)) }
    {
        let had = self.permanent.insert(name, target)?;
        Ok(had)
    }

    /// Gives a permanent root its former target, or removes the root if it had none. Allocates no memory.
    pub fn undo_permanent(&mut self, name: &str, had: Option<StorePath>)
        requires { IsTrue (finite.contains_key self.old.permanent name.now) }
        ensures { self.new ≡ record self.old { permanent = unput self.old.permanent name.now had } }
    {
        match had {
            Some(target) => {
                if let Some(place) = self.permanent.get_mut(name) {
                    *place = target;
                }
            }
            None => self.drop_permanent(name),
        }
    }

    /// Drops a permanent root, if it is there. It takes no memory.
    pub fn drop_permanent(&mut self, name: &str)
        ensures { self.new ≡ record self.old { permanent = finite.remove self.old.permanent name.now } }
    {
        self.permanent.remove(name);
    }

    /// Whether there is a user root of this owner and name.
    pub fn has_user_root(&self, owned: &(String, String)) -> bool
        ensures { result ≡ finite.contains_key self.now.user_roots (pair_bytes owned.now) }
    {
        self.user_roots.contains_key(owned)
    }

    /// Puts a user root, and answers the target that it had. If memory is refused, nothing changes.
    pub fn put_user_root(
        &mut self,
        owned: (String, String),
        target: StorePath,
    ) -> Result<Option<StorePath>, AllocError>
        ensures { PutsOver self.old self.new result
            (record self.old { user_roots = finite.insert self.old.user_roots (pair_bytes owned) target })
            (finite.get self.old.user_roots (pair_bytes owned)) }
    {
        let had = self.user_roots.insert(owned, target)?;
        Ok(had)
    }

    /// Gives a user root its former target, or removes the root if it had none. It takes no memory.
    pub fn undo_user_root(&mut self, owned: &(String, String), had: Option<StorePath>)
        requires { IsTrue (finite.contains_key self.old.user_roots (pair_bytes owned.now)) }
        ensures { self.new ≡ record self.old { user_roots = unput self.old.user_roots (pair_bytes owned.now) had } }
    {
        match had {
            Some(target) => {
                if let Some(place) = self.user_roots.get_mut(owned) {
                    *place = target;
                }
            }
            None => self.drop_user_root(owned),
        }
    }

    /// Drops a user root, if it is there. It takes no memory.
    pub fn drop_user_root(&mut self, owned: &(String, String))
        ensures { self.new ≡ record self.old { user_roots = finite.remove self.old.user_roots (pair_bytes owned.now) } }
    {
        self.user_roots.remove(owned);
    }

    /// Makes the runtime roots these labels, each with a target. It takes no memory.
    pub fn replace_runtime(&mut self, roots: BTreeSet<(String, StorePath)>)
        ensures { self.new ≡ record self.old { runtime = seen_set pair_cmp labelled_bytes roots.keys } }
    {
        self.runtime = roots;
    }
}
