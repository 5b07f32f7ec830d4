//! A store, served on two streams.
ghost use Rattle.std.specs.Prelude.{◌≡◌};
ghost use Rattle.wire.specs.Answers.{Answers};
ghost use Rattle.report.specs.Outputs.{console_of};
ghost use Rattle.wire_server.specs.Sessions.{failure};
ghost use Rattle.wire.specs.Worlds.{AnswersFrom, AnswersSome, LeadsWorlds};
ghost use Rattle.wire.specs.Ends.{ServesStreams, ServesStreamsByWorlds};

use crate::server::Server;
use model::FAILED;
use report::{Failure, print_failure};
use sqlite::Alter;
use std::alloc::Global;
use std::io::{Read, Write};
use store::Store;
use wire_server::{End, serve_connection};

/// The exit status of one connection.
fn status_of(end: End) -> u8
    ensures { result ≡ failure end }
{
    match end {
        End::Served(_) => 0,
        End::Reported(_) | End::Unreported(_) => FAILED,
    }
}

/// Serves a store on one connection.
fn serve<S: Alter, R: Read, W: Write, E: Write>(
    alloc: Global,
    store: &mut Store<S>,
    input: &mut R,
    output: &mut W,
    errors: &mut E,
) -> u8
    ensures { ServesStreams (Answers S.Store) (console_of R.remaining W.contents E.contents input.old input.new
        output.old output.new errors.old errors.new result) store.old store.new }
{
    match Server::new(alloc) {
        Ok(server) => {
            let end = serve_connection(alloc, input, output, errors, &server, store);
            status_of(end)
        }
        Err(_) => print_failure(Failure::Memory, errors),
    }
}

/// Serves a store on one connection, and returns the exit status: 0 if it was served to its end, else 1. Then a line on
/// `errors` says why: `failed: input`, `failed: output` or `failed: memory`. The store is that after the last message
/// that was answered.
///
/// ```rust
/// let mut input = b"GET /paths".as_slice();
/// let (mut output, mut errors) = (Vec::new(alloc), Vec::new(alloc));
/// let status = wire::serve_streams(alloc, store, &mut input, &mut output, &mut errors);
/// assert!(rt; status == 0 && errors.is_empty());
/// assert!(rt; output.ends_with(b"refused: 36 bad-head\n"));
/// ```
pub fn serve_streams<S: Alter, R: Read, W: Write, E: Write>(
    alloc: Global,
    store: &mut Store<S>,
    input: &mut R,
    output: &mut W,
    errors: &mut E,
) -> u8
    ensures served { ServesStreams (Answers S.Store) (console_of R.remaining W.contents E.contents input.old input.new
        output.old output.new errors.old errors.new result) store.old store.new }
    // Over a disk that is clean afterwards, each reply is that of a step.
    ensures worlds { LeadsWorlds S.Store store.old store.new (ServesStreams (AnswersFrom store.old.settings) (console_of
        R.remaining W.contents E.contents input.old input.new output.old output.new errors.old errors.new result)) }
    // Likewise, of one end.
    ensures steps { ServesStreamsByWorlds S.Store (console_of R.remaining W.contents E.contents input.old input.new
        output.old output.new errors.old errors.new result) store.old store.new }
    ensures replies { ServesStreams (AnswersSome store.old.settings) (console_of R.remaining W.contents E.contents
        input.old input.new output.old output.new errors.old errors.new result) tt tt }
{
    serve(alloc, store, input, output, errors)
}
