//! Why a database file isn't opened as a store.
ghost use Rattle.report.specs.Outputs.{written_of};
ghost use Rattle.tool.specs.Files.{AnswersCause};

use paths::StoreDir;
use report::Refusal;
use std::alloc::Global;
use std::io::Write;
use store_types::Reply;
use tables::Cause;
use tool_pure::{Stop, print_reply, say};

/// Prints why a file isn't opened as a store, and returns the exit status.
pub(crate) fn refuse_file<W: Write, E: Write>(
    alloc: Global,
    dir: &StoreDir,
    cause: Cause,
    output: &mut W,
    errors: &mut E,
) -> u8
    ensures { AnswersCause dir.now cause
        (written_of W.contents E.contents output.old output.new errors.old errors.new result) }
{
    match cause {
        Cause::BadSchema => say(Stop::Refused(Refusal::BadSchema), errors),
        Cause::OtherStoreDir => say(Stop::Refused(Refusal::OtherStoreDir), errors),
        Cause::Failed(failure) => print_reply(alloc, dir, Reply::Failed(failure), output, errors),
    }
}
