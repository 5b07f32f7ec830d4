//! A reply, printed on two writers with an exit status.
ghost use Rattle.std.specs.Prelude.{◌≡◌, ◌⊎◌, option_map};
ghost use Rattle.tables_outline.specs.Maps.{labelled_bytes};
ghost use Rattle.report.specs.Stops.{denial_text};
ghost use Rattle.report.specs.Replies as texts;
ghost use Rattle.store_types.specs.View.{answer_view, reply_view};
ghost use Rattle.report.specs.Outputs.{RunsOutOfMemory, Offers, Prints, printed_of, written_of};
ghost use Rattle.tool_pure.specs.Stream.{Says};
ghost use Rattle.tool_pure.specs.PrintedReply.{IsPrinted};

use crate::stops::{DENIED, Stop};
use crate::stream::say;
use paths::{StoreDir, StorePath};
use policy::Rule;
use report::{Failure, answer_text, denial_line, failure_of, print};
use std::alloc::Global;
use std::io::Write;
use store_types::{Answer, Reply};
use streams::{Pieces, send_pieces};

/// Writes a text on `output`. If `output` fails, writes the line of that failure on `errors`.
fn offer<W: Write, E: Write>(text: &Pieces, output: &mut W, errors: &mut E) -> u8
    ensures { Offers text.now (written_of W.contents E.contents output.old output.new errors.old errors.new result) }
{
    match send_pieces(output, text) {
        Ok(()) => 0,
        Err(_) => say(Stop::Failed(Failure::Output), errors),
    }
}

/// Writes the answer to a request that is done.
fn print_answer<W: Write, E: Write>(
    alloc: Global,
    dir: &StoreDir,
    answer: Answer,
    output: &mut W,
    errors: &mut E,
) -> u8
    ensures { Offers (texts.answer_text dir.now (answer_view answer))
        (written_of W.contents E.contents output.old output.new errors.old errors.new result)
        ⊎ RunsOutOfMemory (written_of W.contents E.contents output.old output.new errors.old errors.new result) }
{
    match answer_text(alloc, dir, answer) {
        Ok(text) => offer(&text, output, errors),
        Err(_) => say(Stop::Failed(Failure::Memory), errors),
    }
}

/// Writes a denial.
fn print_denial<E: Write>(
    alloc: Global,
    dir: &StoreDir,
    rule: Rule,
    root: Option<(String, StorePath)>,
    errors: &mut E,
) -> u8
    ensures { Prints (denial_text dir.now rule (option_map labelled_bytes root)) 4
        (printed_of E.contents errors.old errors.new result)
        ⊎ Says (Stop.Failed Failure.Memory) (printed_of E.contents errors.old errors.new result) }
{
    match denial_line(alloc, dir, rule, root) {
        Ok(line) => print(line.as_str(), DENIED, errors),
        Err(_) => say(Stop::Failed(Failure::Memory), errors),
    }
}

/// Writes a reply, and returns the exit status: 0 done, 1 failed, 3 refused, 4 denied.
///
/// The answer to a request that is done goes to `output`; the line of any other reply goes to `errors`. If `output`
/// fails, whatever its error, `failed: output` is printed on `errors`; if memory for the text is refused, `failed:
/// memory`. If `errors` fails, the status is 1.
pub fn print_reply<W: Write, E: Write>(
    alloc: Global,
    dir: &StoreDir,
    reply: Reply,
    output: &mut W,
    errors: &mut E,
) -> u8
    ensures { IsPrinted dir.now (reply_view reply)
        (written_of W.contents E.contents output.old output.new errors.old errors.new result) }
{
    match reply {
        Reply::Done(answer) => print_answer(alloc, dir, answer, output, errors),
        Reply::Denied(rule, root) => print_denial(alloc, dir, rule, root, errors),
        Reply::Refused(refusal) => say(Stop::Refused(refusal), errors),
        Reply::Failed(failure) => say(Stop::Failed(failure_of(failure)), errors),
    }
}
