//! Printing of texts on writers.
ghost use Rattle.report.specs.Outputs.{Prints, PrintsFailure, printed_of};

use model::{FAILED, Failure};
use std::io::Write;
use streams::send_bytes;

/// Writes a text on a writer, and returns `status`; or 1 if the writer fails, which then has a prefix of the text.
///
/// ```rust
/// let mut output = Vec::new(alloc);
/// assert_eq!(rt; report::print("done\n", 0, &mut output), 0);
/// assert_eq!(rt; output.as_slice(), b"done\n".as_slice());
/// ```
pub fn print<W: Write>(text: &str, status: u8, writer: &mut W) -> u8
    ensures { Prints text.now status (printed_of W.contents writer.old writer.new result) }
{
    match send_bytes(writer, text.as_bytes()) {
        Ok(()) => status,
        Err(_) => FAILED,
    }
}

/// Writes the line of a failure on a writer, and returns 1, also if the writer fails.
///
/// ```rust
/// use report::{Failure, print_failure};
///
/// let mut errors = Vec::new(alloc);
/// assert_eq!(rt; print_failure(Failure::Input, &mut errors), 1);
/// assert_eq!(rt; errors.as_slice(), b"failed: input\n".as_slice());
/// ```
pub fn print_failure<W: Write>(failure: Failure, writer: &mut W) -> u8
    ensures { PrintsFailure failure (printed_of W.contents writer.old writer.new result) }
{
    print(failure.line(), FAILED, writer)
}
