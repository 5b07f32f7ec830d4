//! The numbers of paths.

ghost use Rattle.std.specs.Prelude.{◌≡◌, ◌<◌, [], ◌∷◌, ◌++◌, Some, None, length, IfOk, OnOk};
ghost use Rattle.live.specs.Numbering.{place_of};
ghost use Rattle.tables_outline.specs.LinkNames.{AreDistinct, name_at, with_name};

use paths::StorePath;
use std::alloc::AllocError;
use std::collections::BTreeMap;
use std::marker::Model;

/// Paths, each with a number, which it keeps. Contracts see the list of them, each at its number.
#[derive(Drop)]
pub(crate) struct Names {
    pub(crate) numbers: BTreeMap<StorePath, u32>,
    pub(crate) paths: Vec<StorePath>,
}

impl Model for Names {
    ghost use Rattle.std.specs.Prelude.{List, ℕ};

    ghost Value = { List (List ℕ) };

    ghost use Rattle.tables_outline.specs.LinkNames.{AreNumbered};

    ghost view = { λ n. n.paths.items };

    ghost invariant = { λ n. AreNumbered n.numbers.entries n.paths.items };
}

impl Names {
    /// How many paths there are.
    pub(crate) fn len(&self) -> usize
        ensures count { result ≡ length self.now }
        ensures distinct { AreDistinct self.now }
    {
        self.paths.len()
    }

    /// The path of a number.
    pub(crate) fn path(&self, number: usize) -> &StorePath
        requires { number < length self.now }
        ensures { result.now ≡ name_at self.now number }
    {
        &self.paths[number]
    }

    /// The number of a path, if it has one.
    pub(crate) fn find(&self, path: &StorePath) -> Option<u32>
        ensures { result ≡ place_of self.now path.now }
    {
        self.numbers.get(path).copied()
    }

    /// The number of a path, which gets one if it has none.
    pub(crate) fn number(&mut self, path: &StorePath) -> Result<u32, AllocError>
        ensures names { OnOk result (self.new ≡ with_name self.old path.now) }
        ensures number { IfOk result (λ number. place_of self.new path.now ≡ Some number) }
    {
        match self.find(path) {
            Some(number) => Ok(number),
            None => self.put(path),
        }
    }

    /// Gives a path that has no number the next one.
    fn put(&mut self, path: &StorePath) -> Result<u32, AllocError>
        requires { place_of self.old path.now ≡ None }
        ensures names { OnOk result (self.new ≡ self.old ++ path.now ∷ []) }
        ensures number { IfOk result (λ number. number ≡ length self.old) }
    {
        let count = self.paths.len();
        if count > u32::MAX as usize {
            // So many paths don't fit memory.
            return Err(AllocError);
        }
        let key = path.clone()?;
        let name = path.clone()?;
        self.paths.push(name)?;
        match self.numbers.insert(key, count as u32) {
            Ok(_) => Ok(count as u32),
            Err(_) => {
                self.paths.pop();
                Err(AllocError)
            }
        }
    }
}
