//! Why words are no command line.
ghost use Rattle.std.specs.Prelude.{◌≡◌, IfOk};
ghost use Rattle.clap.specs.Kinds.{Kinds, HasKind};
ghost use Rattle.clap.specs.Values.{kind_of};
ghost use Rattle.tool_words.specs.Line.{IsRefusal};
ghost use Rattle.tool_words.specs.Usage.{usage_kind};
ghost use Rattle.tool_words.specs.declared.error.CommandError.TheVariants.{Misuse, Memory};

use crate::grammar::{alone, nixkeep};
use crate::verb::Verb;
use clap::Command;
use clap::error::ErrorKind;
use std::alloc::{AllocError, Global};

/// The subcommands that have ACTIONs.
#[derive(Clone, Copy, PartialEq, Eq, Debug)]
pub enum Acting {
    /// `profile`: set, rollback, switch, delete.
    Profile,
    /// `temp`: add, end.
    Temp,
}

impl Acting {
    fn verb(self) -> Verb {
        match self {
            Acting::Profile => Verb::Profile,
            Acting::Temp => Verb::Temp,
        }
    }
}

/// What is wrong with words in which `clap` finds no fault.
#[derive(Clone, Copy, PartialEq, Eq, Debug)]
pub enum UsageFault {
    /// No subcommand is named.
    NoSubcommand,
    /// `profile` or `temp` is asked for an ACTION that it doesn't have.
    UnknownAction(Acting),
    /// An ACTION lacks its value.
    MissingValue(Acting),
    /// An ACTION that takes no value has one.
    ExtraValue(Acting),
    /// `--owner` is given with `--permanent`.
    OwnerOfPermanent,
    /// The number of `--max-freed` isn't one below 2^64 in decimal digits without a leading zero.
    BadLimit,
    /// `--connections` is given without `--port`.
    ConnectionsWithoutPort,
}

impl UsageFault {
    /// The fault as `clap` reports one that it finds itself: what is wrong, and how the subcommand is used.
    ///
    /// ```rust
    /// use tool::UsageFault;
    ///
    /// let fault = UsageFault::NoSubcommand.error(alloc)?;
    /// assert!(rt; fault.use_stderr());
    /// ```
    ///
    /// # Errors
    ///
    /// Memory was refused.
    pub fn error(self, alloc: Global) -> Result<clap::Error, AllocError>
        ensures { IfOk result (λ e. kind_of e ≡ usage_kind self) }
    {
        let mut command = self.command(alloc)?;
        command.error(self.kind(), self.text())
    }

    /// The command whose usage is printed.
    fn command<'a>(self, alloc: Global) -> Result<Command<'a>, AllocError> {
        match self.verb() {
            Some(verb) => alone(alloc, verb),
            None => nixkeep(alloc),
        }
    }

    /// The subcommand whose words have the fault, if one is named.
    fn verb(self) -> Option<Verb> {
        match self {
            UsageFault::NoSubcommand => None,
            UsageFault::UnknownAction(acting)
            | UsageFault::MissingValue(acting)
            | UsageFault::ExtraValue(acting) => Some(acting.verb()),
            UsageFault::OwnerOfPermanent => Some(Verb::Unroot),
            UsageFault::BadLimit => Some(Verb::Gc),
            UsageFault::ConnectionsWithoutPort => Some(Verb::Serve),
        }
    }

    /// What `clap` calls such a fault.
    fn kind(self) -> ErrorKind
        ensures { result ≡ usage_kind self }
    {
        match self {
            UsageFault::NoSubcommand => ErrorKind::MissingSubcommand,
            UsageFault::UnknownAction(_) => ErrorKind::InvalidValue,
            UsageFault::MissingValue(_) => ErrorKind::MissingRequiredArgument,
            UsageFault::ExtraValue(_) => ErrorKind::TooManyValues,
            UsageFault::OwnerOfPermanent => ErrorKind::ArgumentConflict,
            UsageFault::BadLimit => ErrorKind::ValueValidation,
            UsageFault::ConnectionsWithoutPort => ErrorKind::MissingRequiredArgument,
        }
    }

    /// What is wrong, and what is wanted.
    fn text(self) -> &'static str {
        match self {
            UsageFault::NoSubcommand => "no subcommand is named",
            UsageFault::UnknownAction(Acting::Profile) =>
                "profile has no such action: it has set, rollback, switch and delete",
            UsageFault::UnknownAction(Acting::Temp) =>
                "temp has no such action: it has add and end",
            UsageFault::MissingValue(Acting::Profile) =>
                "a value is missing: set NAME PATH, switch NAME N, delete NAME N",
            UsageFault::MissingValue(Acting::Temp) => "a value is missing: add SESSION PATH",
            UsageFault::ExtraValue(Acting::Profile) => "there is a value too many: rollback NAME",
            UsageFault::ExtraValue(Acting::Temp) => "there is a value too many: end SESSION",
            UsageFault::OwnerOfPermanent =>
                "a permanent root has no owner: either --permanent or --owner is given",
            UsageFault::BadLimit =>
                "--max-freed wants a number of bytes below 2^64, in digits without a leading zero",
            UsageFault::ConnectionsWithoutPort => "--connections wants --port too",
        }
    }
}

/// Why words are no command line.
#[derive(Debug, Drop)]
pub enum CommandError {
    /// `clap` refuses the words, or they ask for help: its text says why.
    Usage(clap::Error),
    /// `clap` finds no fault in the words, but they don't go together.
    Misuse(UsageFault),
    /// Memory was refused.
    Memory,
}

impl From<clap::Error> for CommandError {
    ghost from_gives = { λ fault e. (kinds : Kinds) → HasKind kinds fault → IsRefusal kinds e };

    fn from(fault: clap::Error) -> CommandError {
        match fault.kind() {
            ErrorKind::OutOfMemory => CommandError::Memory,
            _ => CommandError::Usage(fault),
        }
    }
}

impl From<UsageFault> for CommandError {
    ghost from_gives = { λ fault e. e ≡ Misuse fault };

    fn from(fault: UsageFault) -> CommandError {
        CommandError::Misuse(fault)
    }
}

impl From<AllocError> for CommandError {
    ghost from_gives = { λ _ e. e ≡ Memory };

    fn from(_: AllocError) -> CommandError {
        CommandError::Memory
    }
}
