//! Profiles.

ghost use Rattle.std.specs.Prelude.{◌≡◌, nat_le, is_some, IfSome, IsTrue};
ghost use Rattle.std.specs.FinMap as finite;
ghost use Rattle.model.specs.Profiles.{has_generation, highest, is_highest, number_for, previous, put_at, switched};
ghost use Rattle.model.specs.Profiles.{without_generation};
ghost use Rattle.paths.specs.Decimal.{max_generation};
ghost use Rattle.tables_outline.specs.Changes.{ChangesTo};
ghost use Rattle.tables_outline.specs.View.{profile_view};

use paths::StorePath;
use paths::numbers::MAX_GENERATION;
use std::alloc::AllocError;
use std::collections::BTreeMap;

/// A profile: the targets of its generations by number, and the number of the current one.
#[derive(Drop)]
pub struct Profile {
    pub generations: BTreeMap<u32, StorePath>,
    pub current: u32,
}

impl Profile {
    /// Whether there is a generation of a number.
    ///
    /// ```rust
    /// tables.put_profile("ann", "default", Some((1, path)), 1)?;
    /// let profile = tables.profile("ann", "default")?;
    /// assert!(rt; profile.is_some_and(|profile| profile.has_generation(1) && !profile.has_generation(2)));
    /// ```
    pub fn has_generation(&self, number: u32) -> bool
        ensures { result ≡ has_generation (profile_view self.now) number }
    {
        self.generations.contains_key(&number)
    }

    fn highest(&self) -> u32
        ensures { result ≡ highest (profile_view self.now) }
    {
        self.generations.keys().copied().last().unwrap_or(0)
    }

    fn is_highest(&self, target: &StorePath) -> bool
        ensures { result ≡ is_highest (profile_view self.now) target.now }
    {
        match self.generations.get(&self.highest()) {
            Some(present) => present.as_str() == target.as_str(),
            None => false,
        }
    }

    /// The number that a path gets, if one is left: that of the highest generation if it is the path's, else the next.
    ///
    /// ```rust
    /// tables.put_profile("ann", "default", Some((9999, path)), 9999)?;
    /// let number = tables.profile("ann", "default")?.and_then(|profile| profile.number_left(path));
    /// assert_eq!(rt; number, Some(9999));
    /// ```
    pub fn number_left(&self, target: &StorePath) -> Option<u32>
        ensures fits { is_some result ≡ nat_le (number_for (profile_view self.now) target.now) max_generation }
        ensures number { IfSome result (λ n. n ≡ number_for (profile_view self.now) target.now) }
    {
        let highest = self.highest();
        if self.is_highest(target) {
            return if highest <= MAX_GENERATION {
                Some(highest)
            } else {
                None
            };
        }
        if highest < MAX_GENERATION {
            Some(highest + 1)
        } else {
            None
        }
    }

    /// The greatest number below the current one.
    ///
    /// ```rust
    /// tables.put_profile("ann", "default", Some((1, path)), 1)?;
    /// tables.put_profile("ann", "default", Some((2, path)), 2)?;
    /// let number = tables.profile("ann", "default")?.and_then(|profile| profile.previous());
    /// assert_eq!(rt; number, Some(1));
    /// ```
    pub fn previous(&self) -> Option<u32>
        ensures { result ≡ previous (profile_view self.now) }
    {
        let current = self.current;
        self.generations
            .keys()
            .copied()
            .filter(|number| *number < current)
            .last()
    }

    /// Puts a path at a number, which becomes current. If memory is refused, nothing changes.
    pub(crate) fn put(&mut self, number: u32, target: StorePath) -> Result<(), AllocError>
        ensures { ChangesTo (profile_view self.old) (profile_view self.new) result
            (put_at (profile_view self.old) number target) }
    {
        self.generations.insert(number, target)?;
        self.current = number;
        Ok(())
    }

    /// Puts a path at a number that has one, which becomes current. It takes no memory.
    pub(crate) fn replace(&mut self, number: u32, target: StorePath)
        requires { IsTrue (has_generation (profile_view self.old) number) }
        ensures { profile_view self.new ≡ put_at (profile_view self.old) number target }
    {
        let Some(present) = self.generations.get_mut(&number) else {
            return;
        };
        *present = target;
        self.current = number;
    }

    /// Drops a generation, if it is there. It takes no memory.
    pub(crate) fn drop_generation(&mut self, number: u32)
        ensures { profile_view self.new ≡ without_generation (profile_view self.old) number }
    {
        self.generations.remove(&number);
    }

    /// Drops a generation, and makes another number current. It takes no memory.
    pub(crate) fn undo(&mut self, number: u32, current: u32)
        ensures { profile_view self.new ≡ switched (without_generation (profile_view self.old) number) current }
    {
        self.drop_generation(number);
        self.current = current;
    }
}
