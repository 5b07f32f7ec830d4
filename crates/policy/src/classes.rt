//! The classes of callers.
ghost use Rattle.std.specs.Prelude.{◌≡◌, map};
ghost use Rattle.policy.specs.Class.{is_in_group, admits, matches, class_of};
ghost use Rattle.policy.specs.View.{entry_view};

use crate::caller::Caller;
use crate::config::Config;
use crate::entry::Entry;
use crate::groups::Groups;
use crate::kinds::Class;

fn is_in_group(groups: &Groups, caller: &Caller, group: &str) -> bool
    ensures { result ≡ is_in_group groups.now caller.now group.now }
{
    if let Some(primary) = caller.group() {
        if primary == group {
            return true;
        }
    }
    groups.has_member(group, caller.name())
}

fn admits(groups: &Groups, caller: &Caller, entry: &Entry) -> bool
    ensures { result ≡ admits groups.now caller.now (entry_view entry.now) }
{
    match entry {
        Entry::Everyone => true,
        Entry::User(name) => name.as_str() == caller.name(),
        Entry::Group(group) => is_in_group(groups, caller, group.as_str()),
    }
}

fn matches(groups: &Groups, caller: &Caller, entries: &[Entry]) -> bool
    ensures { result ≡ matches groups.now caller.now (map entry_view entries.now) }
{
    entries.iter().any(|entry| admits(groups, caller, entry))
}

/// The class of a caller: trusted if `trusted-users` matches, else allowed if `allowed-users` does, else a stranger. A
/// list matches if it has `*`, the caller's name, or `@` and a group that is the caller's primary one or has the caller
/// among its members. Takes no memory.
///
/// ```rust
/// use policy::{Caller, Class, Config};
///
/// let text = b"allowed-users = []\ntrusted-users = [\"@wheel\"]\n[groups]\nwheel = [\"ann\"]\n";
/// let config = Config::from_toml(alloc, text)?;
/// let ann = Caller::new(alloc, "ann", Some("users"))?;
/// let bob = Caller::new(alloc, "bob", Some("users"))?;
/// assert_eq!(rt; policy::class(&config, &ann), Class::Trusted);
/// assert_eq!(rt; policy::class(&config, &bob), Class::Stranger);
/// ```
pub fn class(config: &Config, caller: &Caller) -> Class
    ensures { result ≡ class_of config.now caller.now }
{
    if matches(config.groups(), caller, config.trusted_users()) {
        return Class::Trusted;
    }
    if matches(config.groups(), caller, config.allowed_users()) {
        return Class::Allowed;
    }
    Class::Stranger
}
