//! Callers: who asks, as a reverse proxy or the command line says.
ghost use Rattle.std.specs.Prelude.{◌≡◌, ◌↔◌, IfOk, option_map, string_bytes, true, false};
ghost use Rattle.policy.specs.Caller.{Caller as Asker, caller_of, is_caller};

use crate::error::CallerError;
use paths::is_plain_name;
use std::alloc::{AllocError, Global};
use std::marker::Model;

/// A caller: a user's name and, where one is known, the primary group. Both are plain names.
#[derive(Drop)]
pub struct Caller {
    name: String,
    group: Option<String>,
}

impl Model for Caller {
    ghost Value = { Asker };

    ghost view = { λ c. caller_of (string_bytes c.name) (option_map string_bytes c.group) };

    ghost invariant = { λ c. is_caller (caller_of (string_bytes c.name) (option_map string_bytes c.group)) ≡ true };
}

impl Caller {
    /// The caller of a user's name and a primary group, if there is one. `BadCaller` if and only if one of them isn't a
    /// plain name.
    ///
    /// ```rust
    /// use policy::{Caller, CallerError};
    ///
    /// let caller = Caller::new(alloc, "ann", Some("users"))?;
    /// assert_eq!(rt; caller.name(), "ann");
    /// assert_eq!(rt; Caller::new(alloc, "-ann", None).err(), Some(CallerError::BadCaller));
    /// ```
    pub fn new(alloc: Global, name: &str, group: Option<&str>) -> Result<Caller, CallerError>
        ensures ok { IfOk result
            (λ c. (c ≡ caller_of name.now (option_map (λ g. g.now) group.entry)) × (is_caller c ≡ true)) }
        ensures bad { (result ≡ Err CallerError.BadCaller)
            ↔ (is_caller (caller_of name.now (option_map (λ g. g.now) group.entry)) ≡ false) }
    {
        if !is_plain_name(name) {
            return Err(CallerError::BadCaller);
        }
        let group = match group {
            Some(group) => {
                if !is_plain_name(group) {
                    return Err(CallerError::BadCaller);
                }
                Some(String::from_str(alloc, group)?)
            }
            None => None,
        };
        let name = String::from_str(alloc, name)?;
        Ok(Caller { name, group })
    }

    /// The user's name.
    ///
    /// ```rust
    /// use policy::Caller;
    ///
    /// let caller = Caller::new(alloc, "ann", None)?;
    /// assert_eq!(rt; caller.name(), "ann");
    /// ```
    pub fn name(&self) -> &str
        ensures { result.now ≡ self.now.name }
    {
        self.name.as_str()
    }

    /// The primary group, where one is known.
    pub(crate) fn group(&self) -> Option<&str>
        ensures { option_map (λ g. g.now) result ≡ self.now.group }
    {
        match &self.group {
            Some(group) => Some(group.as_str()),
            None => None,
        }
    }
}
