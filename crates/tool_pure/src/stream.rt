//! Printing of a result on the two outputs.
ghost use Rattle.report.specs.Outputs.{printed_of, written_of};
ghost use Rattle.tool_pure.specs.Stream.{Says, result_text, Answers};

use crate::stops::Stop;
use report::{Failure, print};
use std::io::Write;
use streams::send_bytes;

/// Prints why a command ends without its result, and returns the exit status.
pub fn say<W: Write>(stop: Stop, writer: &mut W) -> u8
    ensures { Says stop (printed_of W.contents writer.old writer.new result) }
{
    print(stop.text(), stop.status(), writer)
}

/// Prints a text on standard output, or on standard error the line that says why no text exists, and
/// returns the exit status.
///
/// If standard output fails, whatever its error, `failed: output` is printed on standard error. If standard error
/// fails, the status is 1.
pub fn give<W: Write, E: Write>(answer: Result<String, Stop>, output: &mut W, errors: &mut E) -> u8
    ensures { Answers (result_text answer) (written_of W.contents E.contents output.old output.new errors.old errors.new
        result) }
{
    match answer {
        Ok(text) => match send_bytes(output, text.as_str().as_bytes()) {
            Ok(()) => 0,
            Err(_) => say(Stop::Failed(Failure::Output), errors),
        },
        Err(stop) => say(stop, errors),
    }
}
