//! Failures, and the line and the exit status of one.
ghost use Rattle.std.specs.Prelude.{◌≡◌};
ghost use Rattle.model.specs.Failures.{failure_line};

/// The exit status of a command whose memory, disk, file or stream failed.
pub const FAILED: u8 = 1;

/// Why a command or a request has neither a result nor a refusal. Users see the word.
#[derive(Clone, Copy, PartialEq, Eq, Debug)]
pub enum Failure {
    /// Memory was refused.
    Memory,
    /// A row would be larger than a database can hold.
    Size,
    /// The disk of a database failed.
    Disk,
    /// The configuration file could not be read.
    File,
    /// Standard input or a connection could not be read, or a port could not be bound.
    Input,
    /// Standard output or a connection could not be written.
    Output,
}

impl Failure {
    /// The line of the failure, with its line feed.
    ///
    /// ```rust
    /// assert_eq!(rt; model::Failure::Output.line(), "failed: output\n");
    /// ```
    pub fn line(self) -> &'static str
        ensures { result.now ≡ failure_line self }
    {
        match self {
            Failure::Memory => "failed: memory\n",
            Failure::Size => "failed: size\n",
            Failure::Disk => "failed: disk\n",
            Failure::File => "failed: file\n",
            Failure::Input => "failed: input\n",
            Failure::Output => "failed: output\n",
        }
    }
}
