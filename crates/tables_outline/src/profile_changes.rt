//! Profiles in an outline. One that isn't there has no generations.

ghost use Rattle.std.specs.Prelude.{◌≡◌, nat_le, is_some, map, option_map, IfSome, IsFalse, IsTrue};
ghost use Rattle.std.specs.FinMap as finite;
ghost use Rattle.model.specs.Profiles.{has_generation, number_for, previous, put_at, switched, without_generation};
ghost use Rattle.paths.specs.Decimal.{max_generation};
ghost use Rattle.tables_outline.specs.Changes.{ChangesTo, PutsOver};
ghost use Rattle.tables_outline.specs.Maps.{pair_bytes};
ghost use Rattle.tables_outline.specs.View.{profile_view};
ghost use Rattle.tables_outline.specs.Outline.{with_profile, profile_of, current_of, without_added};

use crate::outline::Outline;
use crate::profiles::Profile;
use paths::StorePath;
use std::alloc::{AllocError, Global};
use std::collections::BTreeMap;

impl Outline {
    /// The profile of an owner and a name, if there is one.
    pub fn profile(&self, owned: &(String, String)) -> Option<&Profile>
        ensures { option_map (λ p. profile_view p.now) result ≡ finite.get self.now.profiles (pair_bytes owned.now) }
    {
        self.profiles.get(owned)
    }

    /// All profiles, borrowed, in the order of their owners and names.
    ///
    /// ```rust
    /// tables.put_profile("ann", "default", Some((1, path)), 1)?;
    /// assert_eq!(rt; tables.outline().profiles().len(), 1);
    /// ```
    pub fn profiles(&self) -> &BTreeMap<(String, String), Profile>
        ensures { map (λ e. (pair_bytes e.0, profile_view e.1)) result.now.entries ≡ finite.entries self.now.profiles }
    {
        // Owners and names rise.
        let _count = self.profiles.len();
        &self.profiles
    }

    /// Whether there is a profile of an owner and a name.
    pub fn has_profile(&self, owned: &(String, String)) -> bool
        ensures { result ≡ finite.contains_key self.now.profiles (pair_bytes owned.now) }
    {
        self.profiles.contains_key(owned)
    }

    /// Whether a profile has a generation of a number.
    pub fn has_generation(&self, owned: &(String, String), number: u32) -> bool
        ensures { result ≡ has_generation (profile_of self.now (pair_bytes owned.now)) number }
    {
        match self.profile(owned) {
            Some(profile) => profile.has_generation(number),
            None => false,
        }
    }

    /// The number of the current generation of a profile.
    pub fn current_generation(&self, owned: &(String, String)) -> u32
        ensures { result ≡ (profile_of self.now (pair_bytes owned.now)).current }
    {
        match self.profile(owned) {
            Some(profile) => profile.current,
            None => 0,
        }
    }

    /// The greatest number below the current one of a profile.
    pub fn previous_generation(&self, owned: &(String, String)) -> Option<u32>
        ensures { result ≡ previous (profile_of self.now (pair_bytes owned.now)) }
    {
        match self.profile(owned) {
            Some(profile) => profile.previous(),
            None => None,
        }
    }

    /// The number that a path gets in a profile, if one is left.
    pub fn number_left(&self, owned: &(String, String), target: &StorePath) -> Option<u32>
        ensures fits { is_some result
            ≡ nat_le (number_for (profile_of self.now (pair_bytes owned.now)) target.now) max_generation }
        ensures number { IfSome result (λ n. n ≡ number_for (profile_of self.now (pair_bytes owned.now)) target.now) }
    {
        match self.profile(owned) {
            Some(profile) => profile.number_left(target),
            None => Some(1),
        }
    }

    fn make_profile(
        &mut self,
        alloc: Global,
        owned: (String, String),
        number: u32,
        target: StorePath,
    ) -> Result<(), AllocError>
        requires { IsFalse (finite.contains_key self.old.profiles (pair_bytes owned)) }
        ensures { ChangesTo self.old self.new result
            (with_profile self.old (pair_bytes owned)
            (put_at (profile_of self.old (pair_bytes owned)) number target)) }
    {
        let generations = BTreeMap::new(alloc);
        let mut profile = Profile {
            generations,
            current: 0,
        };
        profile.put(number, target)?;
        self.profiles.insert(owned, profile)?;
        Ok(())
    }

    fn put_more(
        &mut self,
        owned: &(String, String),
        number: u32,
        target: StorePath,
    ) -> Result<(), AllocError>
        requires { IsTrue (finite.contains_key self.old.profiles (pair_bytes owned.now)) }
        ensures { ChangesTo self.old self.new result
            (with_profile self.old (pair_bytes owned.now)
            (put_at (profile_of self.old (pair_bytes owned.now)) number target)) }
    {
        let Some(profile) = self.profiles.get_mut(owned) else {
            return Ok(());
        };
        profile.put(number, target)?;
        Ok(())
    }

    /// Puts a path at a number of a profile, which becomes current, and answers the number that was current. Makes the
    /// profile if it isn't there. If memory is refused, nothing changes.
    pub fn put_generation(
        &mut self,
        alloc: Global,
        owned: (String, String),
        number: u32,
        target: StorePath,
    ) -> Result<Option<u32>, AllocError>
        ensures { PutsOver self.old self.new result
            (with_profile self.old (pair_bytes owned)
            (put_at (profile_of self.old (pair_bytes owned)) number target))
            (current_of self.old (pair_bytes owned)) }
    {
        match self.profile(&owned) {
            Some(profile) => {
                let current = profile.current;
                self.put_more(&owned, number, target)?;
                Ok(Some(current))
            }
            None => {
                self.make_profile(alloc, owned, number, target)?;
                Ok(None)
            }
        }
    }

    /// Drops a generation of a profile and makes another number current, or drops the whole profile where it had none.
    /// It takes no memory.
    pub fn undo_generation(&mut self, owned: &(String, String), number: u32, had: Option<u32>)
        requires { IsTrue (finite.contains_key self.old.profiles (pair_bytes owned.now)) }
        ensures { self.new ≡ record self.old { profiles = without_added self.old (pair_bytes owned.now) number had } }
    {
        match had {
            Some(current) => {
                if let Some(profile) = self.profiles.get_mut(owned) {
                    profile.undo(number, current);
                }
            }
            None => {
                let _put = self.profiles.remove(owned);
            }
        }
    }

    /// Puts a path at a number of a profile that has one, which becomes current. It takes no memory.
    pub fn replace_generation(&mut self, owned: &(String, String), number: u32, target: StorePath)
        requires { IsTrue (has_generation (profile_of self.old (pair_bytes owned.now)) number) }
        ensures { self.new ≡ with_profile self.old (pair_bytes owned.now)
            (put_at (profile_of self.old (pair_bytes owned.now)) number target) }
    {
        let Some(profile) = self.profiles.get_mut(owned) else {
            return;
        };
        profile.replace(number, target);
    }

    /// Makes a generation of a profile current. It takes no memory.
    pub fn switch_generation(&mut self, owned: &(String, String), number: u32)
        requires { IsTrue (finite.contains_key self.old.profiles (pair_bytes owned.now)) }
        ensures { self.new
            ≡ with_profile self.old (pair_bytes owned.now)
            (switched (profile_of self.old (pair_bytes owned.now)) number) }
    {
        let Some(profile) = self.profiles.get_mut(owned) else {
            return;
        };
        profile.current = number;
    }

    /// Drops a generation of a profile, if it is there. It takes no memory.
    pub fn drop_generation(&mut self, owned: &(String, String), number: u32)
        requires { IsTrue (finite.contains_key self.old.profiles (pair_bytes owned.now)) }
        ensures { self.new
            ≡ with_profile self.old (pair_bytes owned.now)
            (without_generation (profile_of self.old (pair_bytes owned.now)) number) }
    {
        let Some(profile) = self.profiles.get_mut(owned) else {
            return;
        };
        profile.drop_generation(number);
    }
}
