//! Subcommands that make a request to a store.
ghost use Rattle.std.specs.Prelude.{IsSome, option_map};
ghost use Rattle.model.specs.Reply.{Reply};
ghost use Rattle.report.specs.Outputs.{written_of};
ghost use Rattle.store_types.specs.View.{request_view};
ghost use Rattle.store.specs.Calls.{Calls};
ghost use Rattle.tool_pure.specs.PrintedReply.{IsPrinted};
ghost use Rattle.tool_words.specs.Asked.{asked_view};
ghost use Rattle.tool_words.specs.Line.{line_view};
ghost use Rattle.tool.specs.Answer.{AnswersAsking};
ghost use Rattle.tool.specs.Files.{DoesFile};
ghost use Rattle.tool.specs.Requests.{AnswersAsked, asks, most_read};
ghost use Rattle.tool.specs.Streams.{AnswersOn};
ghost use Rattle.tool.specs.Works.{calls};

use crate::close::reads;
use crate::console::Console;
use crate::requests::request;
use crate::stores::with_tables;
use crate::work::{Work, Worked};
use policy::{Caller, store_dir};
use sqlite::{Alter, FileFrom, Start};
use std::alloc::Global;
use std::io::{Read, Write};
use std::rt::HostRuntime;
use store::Store;
use store_types::Request;
use tables::Disk;
use tool_pure::{parse_caller, print_reply, say, settings};
use tool_words::{CommandLine, Task};

/// Does a caller's request to a store, writes the reply on the two writers, and returns the exit status: 0 done, 1
/// failed, 3 refused, 4 denied.
///
/// A request that was done stays done, also if a writer fails afterwards or memory for the text is refused.
fn call_store<S: Alter, W: Write, E: Write>(
    alloc: Global,
    store: &mut Store<S>,
    caller: &Caller,
    request: Request,
    output: &mut W,
    errors: &mut E,
) -> u8
    // The store takes one step, and the reply of that step is printed.
    ensures { (reply : Reply) × Calls S.Store caller.now (request_view request) reply store.old store.new
        × IsPrinted store.old.settings.store_dir reply
        (written_of W.contents E.contents output.old output.new errors.old errors.new result) }
{
    let reply = store.call(caller, request);
    print_reply(alloc, store_dir(store.config()), reply, output, errors)
}

/// A subcommand that makes a request to a store, and the caller who makes it.
#[derive(Drop)]
pub(crate) struct CallerTask<'a> {
    pub(crate) caller: &'a Caller,
    pub(crate) task: &'a Task<'a>,
    ghost makes_request: { IsSome (asks (asked_view task.now)) },
}

impl<'a> Work for CallerTask<'a> {
    ghost does = { λ call. option_map (calls call.caller.now) (asks (asked_view call.task.now)) };

    ghost most = { λ call. most_read (asked_view call.task.now) };

    const ASKS_MUCH: bool = false;

    /// Makes the request to a store, and prints the reply. The store is that after the one step of the request; or as
    /// it was, where none is made.
    fn perform<S: Alter, R: Read, W: Write, E: Write>(
        &self,
        rt: &HostRuntime,
        store: &mut Store<S>,
        console: &mut Console<'_, '_, '_, R, W, E>,
    ) -> Worked {
        let alloc = rt.alloc();
        let dir = store_dir(store.config());
        match request(alloc, dir, self.caller, self.task, console.input) {
            Ok(request) => {
                let reads = reads(&request);
                let status = call_store(
                    alloc,
                    store,
                    self.caller,
                    request,
                    console.output,
                    console.errors,
                );
                Worked { status, reads }
            }
            Err(stop) => Worked {
                status: say(stop, console.errors),
                reads: true,
            },
        }
    }
}

/// Makes the request of a command line to its store, by the text of the configuration, and returns the exit status.
pub(crate) fn call<F: Start, R: Read, W: Write, E: Write>(
    rt: &HostRuntime,
    start: F,
    config: &[u8],
    line: &CommandLine<'_>,
    console: &mut Console<'_, '_, '_, R, W, E>,
) -> u8
    requires { IsSome (asks (asked_view line.now.task)) }
    ensures { AnswersOn (most_read (line_view line.now).asked)
        (AnswersAsked (line_view line.now).asked
        (AnswersAsking (DoesFile F.Start ⟦<FileFrom<F> as Disk>⟧) config.now (line_view line.now)))
        R.remaining W.contents E.contents console.old console.new result }
{
    let config = match settings(rt.alloc(), config) {
        Ok(config) => config,
        Err(stop) => return say(stop, console.errors),
    };
    match parse_caller(rt.alloc(), line.user, line.group) {
        Ok(caller) => {
            let work = CallerTask {
                caller: &caller,
                task: &line.task,
            };
            with_tables(rt, start, line.db, config, &work, console)
        }
        Err(stop) => say(stop, console.errors),
    }
}
