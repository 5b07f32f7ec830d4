//! Why a command ends without its result: the line that says so, and the exit status.
ghost use Rattle.std.specs.Prelude.{◌≡◌};
ghost use Rattle.tool_pure.specs.Stop.{stop_by, stop_text, stop_status};

use model::FAILED;
use report::{Failure, Refusal, refusal_line};
use streams::ReadError;

/// The exit status of a command that is refused.
pub(crate) const REFUSED: u8 = 3;

/// The exit status of a command that a rule denies.
pub(crate) const DENIED: u8 = 4;

/// Why a command ends without its result.
#[derive(Clone, Copy, PartialEq, Eq, Debug)]
pub enum Stop {
    /// The command is refused: exit status 3.
    Refused(Refusal),
    /// Memory, the disk, a file or a stream failed: exit status 1.
    Failed(Failure),
}

impl Stop {
    /// The line of the refusal or the failure, with its line feed.
    ///
    /// ```rust
    /// use tool::{Refusal, Stop};
    ///
    /// assert_eq!(rt; Stop::Refused(Refusal::BadCaller).text(), "refused: 20 bad-caller\n");
    /// ```
    pub fn text(self) -> &'static str
        ensures { result.now ≡ stop_text self }
    {
        match self {
            Stop::Refused(refusal) => refusal_line(refusal),
            Stop::Failed(failure) => failure.line(),
        }
    }

    /// The exit status.
    ///
    /// ```rust
    /// use tool::{Failure, Refusal, Stop};
    ///
    /// assert_eq!(rt; Stop::Refused(Refusal::BadCaller).status(), 3);
    /// assert_eq!(rt; Stop::Failed(Failure::Input).status(), 1);
    /// ```
    pub fn status(self) -> u8
        ensures { result ≡ stop_status self }
    {
        match self {
            Stop::Refused(_) => REFUSED,
            Stop::Failed(_) => FAILED,
        }
    }
}

/// The stop for an error while standard input is read.
impl From<ReadError> for Stop {
    ghost from_gives = { λ fault stop. stop ≡ stop_by fault };

    fn from(fault: ReadError) -> Stop {
        match fault {
            ReadError::Input => Stop::Failed(Failure::Input),
            ReadError::Memory => Stop::Failed(Failure::Memory),
        }
    }
}
