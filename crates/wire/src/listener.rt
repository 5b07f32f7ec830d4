//! Serving a borrowed store on the connections of a listener.
ghost use Rattle.std.specs.Prelude.{◌≡◌};
ghost use Rattle.wire.specs.Answers.{Answers};
ghost use Rattle.wire.specs.Ends.{ServesOver};
ghost use Rattle.wire.specs.Worlds.{AnswersFrom, LeadsWorlds};

use crate::server::Server;
use sqlite::Alter;
use std::alloc::Global;
use std::io;
use std::io::Write;
use std::net::TcpListener;
use std::rt::Clock;
use store::Store;
use wire_server::Port;

/// Serves a store on a number of connections of a listener, one after another, and returns how many failed. For each
/// failed one, a line on `errors` says why: `failed: input`, `failed: output` or `failed: memory`. The clock bounds how
/// long the closing of a connection waits for the peer.
///
/// ```rust
/// use std::io::Write;
/// use std::net::{Shutdown, TcpListener, TcpStream};
///
/// let listener = TcpListener::bind(rt, "127.0.0.1:0")?;
/// let mut peer = TcpStream::connect(rt, listener.local_addr()?)?;
/// peer.write_all(b"GET /paths HTTP/1.1\r\nstore-user: ann\r\n\r\n")?;
/// peer.shutdown(Shutdown::Write)?;
/// let mut errors = Vec::new(alloc);
/// let failed = wire::serve_on(rt, alloc, &listener, 1, store, &mut errors)?;
/// assert!(rt; failed == 0 && errors.is_empty());
/// ```
///
/// # Errors
///
/// The error of the first accept that fails, after which nothing more is served; `OutOfMemory` if memory ran out before
/// the first accept.
pub fn serve_on<C: Clock, S: Alter, E: Write>(
    clock: &C,
    alloc: Global,
    listener: &TcpListener,
    connections: u32,
    store: &mut Store<S>,
    errors: &mut E,
) -> io::Result<u32>
    ensures served { ServesOver (Answers S.Store) connections (E.contents errors.old) (E.contents errors.new) store.old
        store.new result }
    ensures settings { store.new.settings ≡ store.old.settings }
    // Over a disk that is clean afterwards, each reply is that of a step.
    ensures worlds { LeadsWorlds S.Store store.old store.new (λ w next.
        ServesOver (AnswersFrom store.old.settings) connections (E.contents errors.old) (E.contents errors.new) w next
        result) }
{
    let server = Server::new(alloc)?;
    let mut peers = Port::new(clock, listener);
    wire_server::serve_on(alloc, &mut peers, connections, errors, &server, store)
}
