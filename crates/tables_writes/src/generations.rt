//! Setting and switching profiles and deleting generations, one transaction a call. The caller ensures that the world
//! is sound after each call. A call fails if memory runs out, a row is too large or the disk fails; then nothing has
//! changed.

ghost use Rattle.std.specs.Prelude.{◌≡◌, IfNone, IsTrue, option_map};
ghost use Rattle.std.specs.FinMap as finite;
ghost use Rattle.model.specs.Profiles.{number_for, put_at, set_to, switched, without_generation};
ghost use Rattle.tables_outline.specs.Outline.{profile_of};
ghost use Rattle.tables_writes.specs.Entries.{with_numbers, with_profile_by};
ghost use Rattle.tables_writes.specs.Writes.{StaysSound, ChangesTables};
ghost use Rattle.tables_rows.specs.Reasons.{NoRow};
ghost use Rattle.tables_writes.specs.RowsPut.{ProfileRow, GenerationRows, NumberedRows};

use crate::change;
use crate::profiles::{DropGeneration, PutGeneration, Switch};
use crate::tables::Tables;
use crate::user_roots::owned;
use paths::StorePath;
use sqlite::Alter;
use tables_sql::failure::Failed;

impl<S: Alter> Tables<S> {
    /// Sets the current generation of a profile. With `generation`, a number and a target, first sets the target of
    /// that number, new or not, and creates the profile if it is missing.
    ///
    /// ```rust
    /// tables.put_profile("ann", "default", Some((1, path)), 1)?;
    /// tables.put_profile("ann", "default", Some((2, path)), 2)?;
    /// tables.put_profile("ann", "default", None, 1)?;
    /// assert_eq!(rt; tables.profile("ann", "default")?.map(|profile| profile.current), Some(1));
    /// ```
    pub fn put_profile(
        &mut self,
        owner: &str,
        name: &str,
        generation: Option<(u32, &StorePath)>,
        current: u32,
    ) -> Result<(), Failed>
        requires present { IfNone generation
            (IsTrue (finite.contains_key self.old.outline.profiles (owner.now, name.now))) }
        requires sound { StaysSound S.Store self.old
            (with_numbers (owner.now, name.now) (option_map (λ e. (e.0, e.1.now)) generation) current) }
        ensures { ChangesTables S.Store self.old self.new result
            (with_numbers (owner.now, name.now) (option_map (λ e. (e.0, e.1.now)) generation.entry) current)
            (NumberedRows (owner.now, name.now) (option_map (λ e. (e.0, e.1.now)) generation.entry) current) }
    {
        match generation {
            Some((number, target)) => self.put_number(owner, name, number, target, current),
            None => self.switch_generation(owner, name, current),
        }
    }

    /// Sets the target of generation `number`, new or not, and makes `current` the current one. Creates the profile if
    /// it is missing.
    fn put_number(
        &mut self,
        owner: &str,
        name: &str,
        number: u32,
        target: &StorePath,
        current: u32,
    ) -> Result<(), Failed>
        requires sound { StaysSound S.Store self.old
            (with_profile_by (owner.now, name.now) (λ p. switched (put_at p number target.now) current)) }
        ensures { ChangesTables S.Store self.old self.new result
            (with_profile_by (owner.now, name.now) (λ p. switched (put_at p number target.now) current))
            (GenerationRows (owner.now, name.now) number target.now current) }
    {
        let key = owned(self.alloc, owner, name)?;
        let value = target.clone()?;
        let put = PutGeneration {
            owner,
            name,
            number,
            target: target.as_str(),
            current,
        };
        if self.outline.has_generation(&key, number) {
            change::commit(&mut self.connection, &put)?;
            self.outline.replace_generation(&key, number, value);
            self.outline.switch_generation(&key, current);
            return Ok(());
        }
        let again = owned(self.alloc, owner, name)?;
        let had = self.outline.put_generation(self.alloc, key, number, value)?;
        self.outline.switch_generation(&again, current);
        match change::commit(&mut self.connection, &put) {
            Ok(()) => Ok(()),
            Err(failure) => {
                self.outline.undo_generation(&again, number, had);
                Err(failure)
            }
        }
    }

    /// Makes a path the current generation of a profile. `number` is that of the highest generation if `target` is its
    /// target, else that of a new one. Creates the profile if it is missing.
    ///
    /// ```rust
    /// tables.set_profile("ann", "default", 1, path)?;
    /// assert_eq!(rt; tables.profile("ann", "default")?.map(|profile| profile.current), Some(1));
    /// ```
    pub fn set_profile(
        &mut self,
        owner: &str,
        name: &str,
        number: u32,
        target: &StorePath,
    ) -> Result<(), Failed>
        requires number { number ≡ number_for (profile_of self.old.outline (owner.now, name.now)) target.now }
        requires sound { StaysSound S.Store self.old
            (with_profile_by (owner.now, name.now) (λ p. set_to p target.now)) }
        ensures { ChangesTables S.Store self.old self.new result
            (with_profile_by (owner.now, name.now) (λ p. set_to p target.now))
            (GenerationRows (owner.now, name.now) number target.now number) }
    {
        let key = owned(self.alloc, owner, name)?;
        if self.outline.has_generation(&key, number) {
            self.switch_generation(owner, name, number)
        } else {
            self.put_number(owner, name, number, target, number)
        }
    }

    /// Sets the current number of a profile that exists.
    ///
    /// ```rust
    /// tables.put_profile("ann", "default", Some((1, path)), 1)?;
    /// tables.put_profile("ann", "default", Some((2, path)), 2)?;
    /// tables.switch_generation("ann", "default", 1)?;
    /// assert_eq!(rt; tables.profile("ann", "default")?.map(|profile| profile.current), Some(1));
    /// ```
    pub fn switch_generation(&mut self, owner: &str, name: &str, number: u32) -> Result<(), Failed>
        requires present { IsTrue (finite.contains_key self.old.outline.profiles (owner.now, name.now)) }
        requires sound { StaysSound S.Store self.old (with_profile_by (owner.now, name.now) (λ p. switched p number)) }
        ensures { ChangesTables S.Store self.old self.new result
            (with_profile_by (owner.now, name.now) (λ p. switched p number))
            (ProfileRow (owner.now, name.now) number) }
    {
        let key = owned(self.alloc, owner, name)?;
        let switch = Switch {
            owner,
            name,
            number,
        };
        change::commit(&mut self.connection, &switch)?;
        self.outline.switch_generation(&key, number);
        Ok(())
    }

    /// Deletes generation `number` of a profile that exists, if the profile has that generation.
    ///
    /// ```rust
    /// tables.put_profile("ann", "default", Some((1, path)), 1)?;
    /// tables.put_profile("ann", "default", Some((2, path)), 2)?;
    /// tables.drop_generation("ann", "default", 1)?;
    /// let profile = tables.profile("ann", "default")?;
    /// assert_eq!(rt; profile.map(|profile| profile.generations.len()), Some(1));
    /// ```
    pub fn drop_generation(&mut self, owner: &str, name: &str, number: u32) -> Result<(), Failed>
        requires present { IsTrue (finite.contains_key self.old.outline.profiles (owner.now, name.now)) }
        requires sound { StaysSound S.Store self.old
            (with_profile_by (owner.now, name.now) (λ p. without_generation p number)) }
        ensures { ChangesTables S.Store self.old self.new result
            (with_profile_by (owner.now, name.now) (λ p. without_generation p number))
            NoRow }
    {
        let key = owned(self.alloc, owner, name)?;
        let dropped = DropGeneration {
            owner,
            name,
            number,
        };
        change::commit(&mut self.connection, &dropped)?;
        self.outline.drop_generation(&key, number);
        Ok(())
    }
}
