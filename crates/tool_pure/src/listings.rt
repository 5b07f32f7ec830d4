//! `ls`: the listing of an archive.
ghost use Rattle.std.specs.Prelude.{◌≡◌, ◌⊎◌, IfOk, IfErr, Ok, Err, None, string_bytes};
ghost use Rattle.report.specs.Outputs.{change_of, console_of};
ghost use Rattle.tool_pure.specs.Archive.{max_prefix, ls_answer};
ghost use Rattle.tool_pure.specs.Stream.{AnswersInput, IsResultFor, result_text};

use crate::archive::{MOST_OF_ARCHIVE, read_archive};
use crate::input::read_input;
use crate::stops::Stop;
use crate::stream::give;
use report::Failure;
use std::alloc::Global;
use std::io::{Read, Write};

fn listing(alloc: Global, nar: &[u8]) -> Result<String, Stop>
    ensures ok { IfOk result (λ text. ls_answer nar.now ≡ Ok (string_bytes text)) }
    ensures err { IfErr result (λ e. (e ≡ Stop.Failed Failure.Memory) ⊎ (ls_answer nar.now ≡ Err e)) }
{
    let node = read_archive(alloc, nar)?;
    let mut text = String::new(alloc);
    nar::list(alloc, &node, &mut text)?;
    Ok(text)
}

fn ls_result<R: Read>(alloc: Global, input: &mut R) -> Result<String, Stop>
    ensures { IsResultFor None max_prefix ls_answer (change_of R.remaining input.old input.new) (result_text result) }
{
    let nar = read_input(alloc, input, MOST_OF_ARCHIVE)?;
    listing(alloc, nar.as_slice())
}

/// Prints the listing of the archive on `input`, and returns the exit status.
///
/// The listing goes to `output`, with status 0: a line for each node, parents first, entries in
/// order. Else one line goes to `errors`: the archive's fault, `refused: 1 truncated` to
/// `refused: 8 too-large`, with status 3; `failed: memory`, `failed: input` or, where `output` fails,
/// `failed: output`, with status 1. No more than 16,777,224 bytes are read, which decide what the
/// input is.
///
/// ```rust
/// let mut input = b"".as_slice();
/// let (mut output, mut errors) = (Vec::new(alloc), Vec::new(alloc));
/// assert_eq!(rt; tool::ls(alloc, &mut input, &mut output, &mut errors), 3);
/// assert_eq!(rt; errors.as_slice(), b"refused: 1 truncated\n".as_slice());
/// ```
pub fn ls<R: Read, W: Write, E: Write>(
    alloc: Global,
    input: &mut R,
    output: &mut W,
    errors: &mut E,
) -> u8
    ensures { AnswersInput None max_prefix ls_answer
        (console_of R.remaining W.contents E.contents input.old input.new output.old output.new errors.old errors.new
        result) }
{
    give(ls_result(alloc, input), output, errors)
}
