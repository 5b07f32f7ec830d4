//! Connections of a listener, one after another.
ghost use Rattle.std.specs.Prelude.{ℕ, List, [], ◌∷◌, Option, IfOk, IfErr, OnOk, OnErr};
ghost use Rattle.std.specs.declared.io.Error.{Error};
ghost use Rattle.wire_server.specs.Peers.{IsFresh, ClosesPeers, AcceptsPeers, CountsFaults};
ghost use Rattle.wire_server.specs.ServesAll.{ServesOn};

use crate::connection::serve_connection;
use crate::responder::Responder;
use std::alloc::Global;
use std::io;
use std::io::{Read, Write};

/// A source of connections, which are accepted one after another.
pub trait Listener {
    /// The input of a connection: what a peer sends.
    type Input: Read + Drop;

    /// The output of a connection: what is sent to a peer.
    type Output: Write + Drop;

    /// What each of the waiting peers is going to send, if the listener shows it.
    ghost waiting: { Self → Option (List (List ℕ)) };

    /// What was written to each peer whose connection was closed, if the listener shows it.
    ghost closed: { Self → Option (List (List ℕ)) };

    /// What was left unread of the input of each connection that was closed, if the listener shows it.
    ghost unread: { Self → Option (List (List ℕ)) };

    /// How many accepts have failed, if the listener shows it.
    ghost faults: { Self → Option ℕ };

    /// An accept failed with this error, and left the listener like this.
    ghost fails: { Self → Error → Type 0 };

    /// Accepts the connection of the next peer, on which nothing was read or written yet.
    fn accept(&mut self) -> io::Result<(Self::Input, Self::Output)>
        ensures accepted { IfOk result (λ c. AcceptsPeers (waiting self.old) (waiting self.new)
            (Self.Input.remaining c.0 ∷ [])) }
        ensures none { OnErr result (AcceptsPeers (waiting self.old) (waiting self.new) []) }
        ensures error { IfErr result (λ fault. fails self.new fault) }
        ensures fresh { IfOk result (λ c. IsFresh (Self.Output.contents c.1)) }
        ensures left { ClosesPeers (closed self.old) (closed self.new) [] }
        ensures rest { ClosesPeers (unread self.old) (unread self.new) [] }
        ensures succeeded { OnOk result (CountsFaults (faults self.old) (faults self.new) 0) }
        ensures failed { OnErr result (CountsFaults (faults self.old) (faults self.new) 1) };

    /// Closes a connection.
    fn close(&mut self, input: Self::Input, output: Self::Output)
        ensures accepted { AcceptsPeers (waiting self.old) (waiting self.new) [] }
        ensures left { ClosesPeers (closed self.old) (closed self.new) (Self.Output.contents output ∷ []) }
        ensures rest { ClosesPeers (unread self.old) (unread self.new) (Self.Input.remaining input ∷ []) }
        ensures succeeded { CountsFaults (faults self.old) (faults self.new) 0 };
}

/// Serves a number of connections, one after another, and returns how many failed. For each failed one, a line on
/// `errors` says why; the next connection is served all the same.
///
/// # Errors
///
/// The error of the first accept that fails, after which nothing more is accepted or served.
pub fn serve_on<L: Listener, E: Write, T, A: Responder<T>>(
    alloc: Global,
    listener: &mut L,
    connections: u32,
    errors: &mut E,
    responder: &A,
    state: &mut T,
) -> io::Result<u32>
    ensures { ServesOn A.answers (L.fails listener.new) connections (L.waiting listener.old) (L.waiting listener.new)
        (L.closed listener.old) (L.closed listener.new) (L.unread listener.old) (L.unread listener.new)
        (L.faults listener.old) (L.faults listener.new) (E.contents errors.old) (E.contents errors.new) state.old
        state.new result }
{
    let mut failed = 0;
    'connections: for _ in 0..connections {
        let (mut input, mut output) = listener.accept()?;
        let end = serve_connection(alloc, &mut input, &mut output, errors, responder, state);
        listener.close(input, output);
        failed += end.failures();
    }
    Ok(failed)
}
