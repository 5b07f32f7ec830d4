//! A store, served on a port of this machine.
ghost use Rattle.std.specs.Prelude.{◌≡◌, ◌⊎◌, ⊤, None};
ghost use Rattle.report.specs.Outputs.{PrintsFailure, printed_of};
ghost use Rattle.model.specs.declared.failures.Failure.TheVariants.{Input};
ghost use Rattle.wire.specs.Answers.{Answers};
ghost use Rattle.wire.specs.Worlds.{AnswersFrom, AnswersSome, LeadsWorlds};
ghost use Rattle.wire.specs.Ends.{ServesListener, ServesPort, ServesPortByWorlds};

use crate::server::Server;
use model::FAILED;
use report::{Failure, print_failure};
use sqlite::Alter;
use std::alloc::Global;
use std::io::Write;
use std::net::{Ipv4Addr, Net, TcpListener, TcpStream};
use std::rt::Clock;
use store::Store;
use wire_server::{Listener, Port, Responder};

/// A port couldn't be bound, or no connection could be accepted on it.
const NO_INPUT: Failure = Failure::Input;

/// Serves a number of connections of a listener, and returns the exit status.
fn serve_listener<L: Listener, E: Write, T, A: Responder<T>>(
    alloc: Global,
    listener: &mut L,
    connections: u32,
    errors: &mut E,
    responder: &A,
    state: &mut T,
) -> u8
    ensures { ServesListener A.answers (L.fails listener.new) connections (L.waiting listener.old)
        (L.waiting listener.new) (L.closed listener.old) (L.closed listener.new) (L.unread listener.old)
        (L.unread listener.new) (L.faults listener.old) (L.faults listener.new) (E.contents errors.old)
        (E.contents errors.new) state.old state.new result }
{
    match wire_server::serve_on(alloc, listener, connections, errors, responder, state) {
        Ok(0) => 0,
        Ok(_) => FAILED,
        Err(_) => print_failure(NO_INPUT, errors),
    }
}

/// A port to listen on, and how many connections are served on it.
#[derive(Clone, Copy)]
struct ListenOptions {
    port: u16,
    connections: u32,
}

/// Serves a number of connections of a port, where it can be bound, and returns the exit status.
fn listen<N: Net<Listener = TcpListener, Stream = TcpStream> + Clock, E: Write, T, A: Responder<T>>(
    net: &N,
    alloc: Global,
    options: ListenOptions,
    errors: &mut E,
    responder: &A,
    state: &mut T,
) -> u8
    ensures { (PrintsFailure Input (printed_of E.contents errors.old errors.new result) × (state.new ≡ state.old))
        ⊎ ServesListener A.answers (λ _. ⊤) options.connections None None None None None None None None
        (E.contents errors.old) (E.contents errors.new) state.old state.new result }
{
    let ListenOptions { port, connections } = options;
    match TcpListener::bind(net, (Ipv4Addr::LOCALHOST, port)) {
        Ok(listener) => {
            let mut peers = Port::new(net, &listener);
            serve_listener(alloc, &mut peers, connections, errors, responder, state)
        }
        Err(_) => print_failure(NO_INPUT, errors),
    }
}

/// Serves a store on a number of connections of a port of 127.0.0.1.
fn serve<N: Net<Listener = TcpListener, Stream = TcpStream> + Clock, S: Alter, E: Write>(
    net: &N,
    alloc: Global,
    port: u16,
    connections: u32,
    store: &mut Store<S>,
    errors: &mut E,
) -> u8
    ensures { ServesPort (Answers S.Store) connections (E.contents errors.old) (E.contents errors.new) store.old
        store.new result }
{
    match Server::new(alloc) {
        Ok(server) => {
            let options = ListenOptions { port, connections };
            listen(net, alloc, options, errors, &server, store)
        }
        Err(_) => print_failure(Failure::Memory, errors),
    }
}

/// Serves a store on a number of connections of a port of 127.0.0.1, one after another, and returns the exit status: 0
/// if each was served to its end, else 1. The store is that after the last message that was answered.
///
/// A line on `errors` says why a connection failed: `failed: input`, `failed: output` or `failed: memory`. If the port
/// can't be bound, or an accept fails, the line is `failed: input`, and nothing more is served.
///
/// ```rust
/// let mut errors = Vec::new(alloc);
/// let status = wire::serve_port(&rt, alloc, 8080, 0, store, &mut errors);
/// assert!(rt; status == 0 && errors.is_empty());
/// ```
pub fn serve_port<N: Net<Listener = TcpListener, Stream = TcpStream> + Clock, S: Alter, E: Write>(
    net: &N,
    alloc: Global,
    port: u16,
    connections: u32,
    store: &mut Store<S>,
    errors: &mut E,
) -> u8
    ensures served { ServesPort (Answers S.Store) connections (E.contents errors.old) (E.contents errors.new) store.old
        store.new result }
    // Over a disk that is clean afterwards, each reply is that of a step.
    ensures worlds { LeadsWorlds S.Store store.old store.new (λ w next.
        ServesPort (AnswersFrom store.old.settings) connections (E.contents errors.old) (E.contents errors.new) w next
        result) }
    // Likewise, of one end.
    ensures steps { ServesPortByWorlds S.Store connections (E.contents errors.old) (E.contents errors.new) store.old
        store.new result }
    ensures replies { ServesPort (AnswersSome store.old.settings) connections (E.contents errors.old)
        (E.contents errors.new) tt tt result }
{
    serve(net, alloc, port, connections, store, errors)
}
