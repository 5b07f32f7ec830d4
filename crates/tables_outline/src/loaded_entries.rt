//! Entries of roots and profiles that are read at opening.

ghost use Rattle.std.specs.Prelude.{◌≡◌, IsTrue, IfOk, OnOk, map, string_bytes};
ghost use Rattle.std.specs.List.{list_all};
ghost use Rattle.std.specs.FinMap as finite;
ghost use Rattle.tables_outline.specs.Maps.{pair_bytes};
ghost use Rattle.tables_outline.specs.View.{profile_view};
ghost use Rattle.tables_outline.specs.LoadedEntries.{has_currents, with_number, with_generation};

use crate::outline::Outline;
use crate::profiles::Profile;
use paths::StorePath;
use std::alloc::{AllocError, Global};
use std::collections::BTreeMap;

/// Puts a generation of this profile.
fn put(profile: &mut Profile, number: u32, target: StorePath) -> Result<(), AllocError>
    ensures { OnOk result (profile_view profile.new ≡ with_number number target (profile_view profile.old)) }
{
    profile.generations.insert(number, target)?;
    Ok(())
}

/// Whether a profile has a generation of its current number.
fn is_current(profile: &Profile) -> bool
    ensures { result ≡ finite.contains_key (profile_view profile.now).generations profile.now.current }
{
    profile.generations.contains_key(&profile.current)
}

fn all_current(profiles: &BTreeMap<(String, String), Profile>) -> bool
    ensures { result ≡ list_all
        (λ p. finite.contains_key (profile_view p).generations p.current) (map (λ e. e.1) profiles.now.entries) }
{
    profiles.values().all(|profile| is_current(profile))
}

impl Outline {
    /// Adds a runtime root.
    pub fn add_runtime(&mut self, label: String, target: StorePath) -> Result<(), AllocError>
        ensures { OnOk result (self.new
            ≡ record self.old { runtime = finite.insert self.old.runtime (string_bytes label, target) tt }) }
    {
        self.runtime.insert((label, target))?;
        Ok(())
    }

    /// Puts a profile that has no generations yet, with this number for the current one.
    pub fn add_profile(
        &mut self,
        alloc: Global,
        owned: (String, String),
        current: u32,
    ) -> Result<(), AllocError>
        ensures { OnOk result (self.new
            ≡ record self.old {
              profiles = finite.insert self.old.profiles (pair_bytes owned)
                  (record { generations = finite.empty; current = current });
            }) }
    {
        let generations = BTreeMap::new(alloc);
        self.profiles.insert(
            owned,
            Profile {
                generations,
                current,
            },
        )?;
        Ok(())
    }

    /// Puts a generation of a profile, and answers whether there is such a profile.
    pub fn add_generation(
        &mut self,
        owned: &(String, String),
        number: u32,
        target: StorePath,
    ) -> Result<bool, AllocError>
        ensures present { IfOk result
            (λ present. present ≡ finite.contains_key self.old.profiles (pair_bytes owned.now)) }
        ensures done { IfOk result
            (λ present. IsTrue present
            → self.new ≡ record self.old
            { profiles = with_generation (pair_bytes owned.now) number target self.old.profiles }) }
    {
        match self.profiles.get_mut(owned) {
            Some(profile) => {
                put(profile, number, target)?;
                Ok(true)
            }
            None => Ok(false),
        }
    }

    /// Whether each profile has a generation of its current number.
    pub fn has_currents(&self) -> bool
        ensures { result ≡ has_currents self.now.profiles }
    {
        // Owners and names rise.
        let _count = self.profiles.len();
        all_current(&self.profiles)
    }
}
