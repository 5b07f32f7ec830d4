//! Serving a borrowed store on one connection.
ghost use Rattle.std.specs.Prelude.{◌≡◌};
ghost use Rattle.wire_server.specs.Serves.{Served};
ghost use Rattle.wire.specs.Answers.{Answers};
ghost use Rattle.wire.specs.Worlds.{AnswersFrom, AnswersSome, LeadsWorlds};

use crate::server::Server;
use sqlite::Alter;
use std::alloc::Global;
use std::io::{Read, Write};
use store::Store;
use wire_server::WireError;

/// How many messages were answered. It stays at its greatest value.
pub type Count = u64;

/// Serves a store on one connection: answers the messages of the input one after another, up to its end, the first that
/// closes the connection, or an input that doesn't begin with a message. Returns how many were answered.
///
/// ```rust
/// let mut input = b"GET /paths HTTP/1.1\r\nstore-user: ann\r\n\r\n".as_slice();
/// let mut output = Vec::new(alloc);
/// assert_eq!(rt; wire::serve(alloc, store, &mut input, &mut output), Ok(1));
/// assert!(rt; output.starts_with(b"HTTP/1.1 200 OK\r\n"));
/// ```
///
/// # Errors
///
/// `Read` if the reader failed; `Write` if the writer failed, or took no byte; `Memory` if memory ran out. The store is
/// that after the calls made. The output has the whole replies before the error, and at `Write` a prefix of the next.
pub fn serve<S: Alter, R: Read, W: Write>(
    alloc: Global,
    store: &mut Store<S>,
    input: &mut R,
    output: &mut W,
) -> Result<Count, WireError>
    ensures served { Served (Answers S.Store) (R.remaining input.old) (R.remaining input.new) (W.contents output.old)
        (W.contents output.new) store.old store.new result }
    ensures settings { store.new.settings ≡ store.old.settings }
    // Over a disk that is clean afterwards, each reply is that of a step.
    ensures worlds { LeadsWorlds S.Store store.old store.new (λ w next.
        Served (AnswersFrom store.old.settings) (R.remaining input.old) (R.remaining input.new) (W.contents output.old)
        (W.contents output.new) w next result) }
    ensures replies { Served (AnswersSome store.old.settings) (R.remaining input.old) (R.remaining input.new)
        (W.contents output.old) (W.contents output.new) tt tt result }
{
    let server = Server::new(alloc)?;
    wire_server::serve(alloc, input, output, &server, store)
}
