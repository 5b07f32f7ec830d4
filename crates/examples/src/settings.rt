//! A caller of `policy`.
use policy::{
    Caller, CallerError, Class, Config, ConfigError, KeyWord, Op, Rule, class, decide,
    keep_derivations, keep_outputs, store_dir,
};
use std::alloc::Global;
use std::test::Fail;

fn config(alloc: Global, text: &[u8]) -> Result<Config, ConfigError> {
    Config::from_toml(alloc, text)
}

fn dir_in(config: &Config) -> &str {
    store_dir(config).as_str()
}

/// Whether derivations are kept, and outputs.
fn kept_by(config: &Config) -> (bool, bool) {
    (keep_derivations(config), keep_outputs(config))
}

/// Whether a configuration has this store directory, and says this of derivations and of outputs.
fn are_settings(
    alloc: Global,
    text: &[u8],
    dir: &str,
    kept: (bool, bool),
) -> Result<bool, ConfigError> {
    let config = config(alloc, text)?;
    Ok(dir_in(&config) == dir && kept_by(&config) == kept)
}

const OTHER: &[u8] = b"store-dir = \"/s\"\nkeep-outputs = true\nkeep-derivations = false\n";

#[test]
fn read_settings(rt: HostRuntime) -> Result<(), Fail> {
    let alloc = rt.alloc();
    assert!(rt; are_settings(alloc, b"", "/nix/store", (true, false))?);
    assert!(rt; are_settings(alloc, OTHER, "/s", (false, true))?);
    Ok(())
}

fn fault_of(alloc: Global, text: &[u8]) -> Option<ConfigError> {
    match Config::from_toml(alloc, text) {
        Ok(_) => None,
        Err(e) => Some(e),
    }
}

// The first key word that applies is reported.
#[test]
fn refused_settings(rt: HostRuntime) {
    for (text, word) in [
        (
            b"x = 1\nstore-dir = \"/\"\n".as_slice(),
            KeyWord::UnknownKey,
        ),
        (b"store-dir = \"/\"\n", KeyWord::StoreDir),
        (b"allowed-users = [\"@\"]\n", KeyWord::AllowedUsers),
        (b"\xff", KeyWord::Syntax),
    ] {
        assert_eq!(rt; fault_of(rt.alloc(), text), Some(ConfigError::Bad(word)));
    }
}

fn caller(alloc: Global, name: &str, group: Option<&str>) -> Result<Caller, CallerError> {
    Caller::new(alloc, name, group)
}

fn class_of(config: &Config, caller: &Caller) -> Class {
    class(config, caller)
}

fn broken_by(class: Class, caller: &Caller, op: &Op) -> Option<Rule> {
    decide(class, caller, op)
}

const WHEEL: &[u8] =
    b"allowed-users = []\ntrusted-users = [\"@wheel\"]\n[groups]\nwheel = [\"ann\"]\n";

#[test]
fn classes_and_connections(rt: HostRuntime) -> Result<(), Fail> {
    let alloc = rt.alloc();
    let config = config(alloc, WHEEL)?;
    for (user, group, wanted, rule) in [
        ("ann", "users", Class::Trusted, None),
        ("bob", "users", Class::Stranger, Some(Rule::Connect)),
        ("bob", "wheel", Class::Trusted, None),
    ] {
        let caller = caller(alloc, user, Some(group))?;
        let class = class_of(&config, &caller);
        assert!(rt; class == wanted, "{user} of {group}");
        assert!(rt;
            broken_by(class, &caller, &Op::Plain) == rule,
            "{user} of {group}"
        );
    }
    Ok(())
}

#[test]
fn verdicts_on_the_allowed(rt: HostRuntime) -> Result<(), Fail> {
    let caller = caller(rt.alloc(), "ann", None)?;
    for (op, rule) in [
        (Op::Import { has_address: false }, Some(Rule::TrustedImport)),
        (Op::Import { has_address: true }, None),
        (Op::SetPermanent, Some(Rule::TrustedPermanentRoot)),
        (Op::ReplaceRuntime, Some(Rule::TrustedRuntimeRoots)),
        (Op::SetUserRoot("bob"), Some(Rule::OwnRoot)),
        (Op::SetUserRoot("ann"), None),
        (
            Op::Collect {
                ignore_liveness: true,
            },
            Some(Rule::NoIgnoreLiveness),
        ),
        (
            Op::Delete {
                ignore_liveness: false,
            },
            None,
        ),
    ] {
        assert!(rt; broken_by(Class::Allowed, &caller, &op) == rule, "{op:?}");
    }
    Ok(())
}

#[test]
fn verdict_on_the_trusted(rt: HostRuntime) -> Result<(), Fail> {
    let caller = caller(rt.alloc(), "ann", None)?;
    assert!(rt; broken_by(Class::Trusted, &caller, &Op::DropUserRoot("bob")).is_none());
    Ok(())
}

/// A name of this many letters.
fn letters(alloc: Global, count: usize) -> Result<String, Fail> {
    let mut name = String::new(alloc);
    for _ in 0..count {
        name.push('a')?;
    }
    Ok(name)
}

#[test]
fn named_callers(rt: HostRuntime) -> Result<(), Fail> {
    let longest = letters(rt.alloc(), 64)?;
    let caller = caller(rt.alloc(), longest.as_str(), None)?;
    assert!(rt; caller.name() == longest.as_str());
    Ok(())
}

/// Whether nobody has such a name and group.
fn is_nobody(alloc: Global, name: &str, group: Option<&str>) -> bool {
    matches!(Caller::new(alloc, name, group), Err(CallerError::BadCaller))
}

#[test]
fn refused_callers(rt: HostRuntime) -> Result<(), Fail> {
    let alloc = rt.alloc();
    let longer = letters(alloc, 65)?;
    assert!(rt; is_nobody(alloc, longer.as_str(), None));
    assert!(rt; is_nobody(alloc, "", None));
    assert!(rt; is_nobody(alloc, "ann", Some("a b")));
    Ok(())
}
