//! Why a configuration or a caller is refused.
ghost use Rattle.std.specs.Prelude.{◌≡◌, Some};
ghost use Rattle.policy.specs.Words.{key_word};
ghost use Rattle.policy.specs.declared.error.CallerError.TheVariants.{Memory as NoMemory};
ghost use Rattle.policy.specs.declared.error.ConfigError.TheVariants.{Memory};

use std::alloc::AllocError;
use std::fmt;
use thiserror::Error;

/// What is wrong with a configuration text, in the order in which it is looked for.
#[derive(Clone, Copy, PartialEq, Eq, Debug)]
pub enum KeyWord {
    /// Above 1,048,576 bytes, not UTF-8, or no TOML document (a key given twice too).
    Syntax,
    /// A key that isn't one of the configuration's.
    UnknownKey,
    /// `store-dir` isn't a text, or not a store directory.
    StoreDir,
    /// `allowed-users` isn't an array of entries.
    AllowedUsers,
    /// `trusted-users` isn't an array of entries.
    TrustedUsers,
    /// `keep-outputs` isn't a truth value.
    KeepOutputs,
    /// `keep-derivations` isn't a truth value.
    KeepDerivations,
    /// `groups` isn't a table from plain names to arrays of plain names.
    Groups,
}

impl KeyWord {
    /// The word itself: the key that is at fault, `syntax` or `unknown-key`.
    ///
    /// ```rust
    /// use policy::KeyWord;
    ///
    /// assert_eq!(rt; KeyWord::Syntax.as_str(), "syntax");
    /// assert_eq!(rt; KeyWord::AllowedUsers.as_str(), "allowed-users");
    /// ```
    pub fn as_str(self) -> &'static str
        ensures { result.now ≡ key_word self }
    {
        match self {
            KeyWord::Syntax => "syntax",
            KeyWord::UnknownKey => "unknown-key",
            KeyWord::StoreDir => "store-dir",
            KeyWord::AllowedUsers => "allowed-users",
            KeyWord::TrustedUsers => "trusted-users",
            KeyWord::KeepOutputs => "keep-outputs",
            KeyWord::KeepDerivations => "keep-derivations",
            KeyWord::Groups => "groups",
        }
    }
}

impl fmt::Display for KeyWord {
    ghost output = { λ word. Some (key_word word) };

    fn fmt<W: fmt::Write>(&self, f: &mut fmt::Formatter<W>) -> fmt::Result {
        let word = self.as_str();
        write!(f, "{word}")
    }
}

/// Why a text gives no configuration.
#[derive(Clone, Copy, PartialEq, Eq, Debug, Error)]
pub enum ConfigError {
    /// The text is no configuration; the key word is the first that applies.
    #[error("bad-config {0}")]
    Bad(KeyWord),
    /// Memory was refused.
    #[error("memory")]
    Memory,
}

impl From<AllocError> for ConfigError {
    ghost from_gives = { λ _ e. e ≡ Memory };

    fn from(_refused: AllocError) -> ConfigError {
        ConfigError::Memory
    }
}

/// Why a name and a group give no caller.
#[derive(Clone, Copy, PartialEq, Eq, Debug, Error)]
pub enum CallerError {
    /// The name or the group isn't a plain name.
    #[error("bad-caller")]
    BadCaller,
    /// Memory was refused.
    #[error("memory")]
    Memory,
}

impl From<AllocError> for CallerError {
    ghost from_gives = { λ _ e. e ≡ NoMemory };

    fn from(_refused: AllocError) -> CallerError {
        CallerError::Memory
    }
}
