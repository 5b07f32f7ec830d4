//! Connections of a port, which are drained when they are closed.
ghost use Rattle.std.specs.Prelude.{⊤, None, ◌≡◌, ◌≤◌, ◌<◌, ◌-◌, ◌↔◌, min, IfSome, IsSome};
ghost use Rattle.std.specs.Duration.{as_nanos};

use crate::fields::MAX_BODY;
use crate::head::MAX_HEAD;
use crate::listener::Listener;
use crate::peer::{Incoming, Outgoing, directions};
use std::io;
use std::io::Read;
use std::net::{Shutdown, TcpListener, TcpStream};
use std::rt::Clock;
use std::time::{Duration, Instant};
use streams::PIECE_SIZE;

/// How many seconds a connection waits for a peer: for the next byte of an input, and until a piece of a reply is sent.
const LIMIT: u64 = 60;

/// The connections of a listener. If a peer sends nothing for 60 seconds, the read that waits for it fails. If a peer
/// doesn't take a piece of a reply in 60 seconds, the next write fails.
#[derive(Drop)]
pub struct Port<'a, C: Clock> {
    listener: &'a TcpListener,
    clock: &'a C,
}

impl<'a, C: Clock> Port<'a, C> {
    /// The connections of a listener, by a clock.
    pub fn new(clock: &'a C, listener: &'a TcpListener) -> Port<'a, C> {
        Port { listener, clock }
    }
}

/// Sets the time limits of a connection, and returns a second handle of it, for writing.
fn prepare(input: &TcpStream) -> io::Result<TcpStream> {
    // Head and text of a reply are two writes, and none waits for the other to arrive. Where the system doesn't allow
    // that, replies only take longer, which is no reason to end the connection.
    drop(input.set_nodelay(true));
    input.set_read_timeout(Some(Duration::from_secs(LIMIT)))?;
    input.set_write_timeout(Some(Duration::from_secs(LIMIT)))?;
    input.try_clone()
}

impl<'a, C: Clock> Listener for Port<'a, C> {
    type Input = Incoming<TcpStream>;

    type Output = Outgoing<'a, TcpStream, C>;

    ghost waiting = { λ _. None };

    ghost closed = { λ _. None };

    ghost unread = { λ _. None };

    ghost faults = { λ _. None };

    ghost fails = { λ _ _. ⊤ };

    /// Accepts a connection and sets its limits; if that fails, its first read fails. Then the next connection can be
    /// served.
    fn accept(&mut self) -> io::Result<(Incoming<TcpStream>, Outgoing<'a, TcpStream, C>)> {
        let (input, _) = self.listener.accept()?;
        let output = prepare(&input);
        Ok(directions(self.clock, input, output))
    }

    /// Shuts down writing, drains the input, closes. Closing at once could lose the last reply.
    fn close(&mut self, mut input: Incoming<TcpStream>, output: Outgoing<'a, TcpStream, C>) {
        if input.stream().shutdown(Shutdown::Write).is_ok() {
            drop(read_out(self.clock, input.stream()));
        }
        drop(output);
    }
}

/// How many bytes are read at most: the largest body that is accepted, and a head.
const MOST: usize = MAX_BODY + MAX_HEAD;

/// How many seconds a peer may be silent.
const SILENCE: u64 = 1;

/// How many seconds the draining takes at most, whatever the peer does.
const TIME: u64 = 5;

/// How long the next read may wait after this much time: a second at most, and no longer than what is left of five
/// seconds. `None` if nothing is left.
fn patience(passed: Duration) -> Option<Duration>
    ensures variant { IsSome result ↔ (as_nanos passed < 5_000_000_000) }
    ensures exact { IfSome result (λ d. as_nanos d ≡ min 1_000_000_000 (5_000_000_000 - as_nanos passed)) }
    ensures silent { IfSome result (λ d. as_nanos d ≤ 1_000_000_000) }
    ensures some { IfSome result (λ d. 0 < as_nanos d) }
{
    let silence = Duration::from_secs(SILENCE);
    let Some(left) = Duration::from_secs(TIME).checked_sub(passed) else {
        return None;
    };
    if left.is_zero() {
        return None;
    }
    Some(if left < silence { left } else { silence })
}

/// Reads and drops what a peer still sends, until the peer closes the connection, is silent for a second, or has sent
/// 20,987,904 bytes, but for no longer than five seconds.
///
/// # Errors
///
/// The error of the first read that fails or waits too long, or of the clock.
pub(crate) fn read_out<C: Clock>(clock: &C, input: &mut TcpStream) -> io::Result<()> {
    let start = Instant::now(clock)?;
    let mut window = [0; PIECE_SIZE];
    let mut left = MOST;
    'reads: while left > 0 {
        let Some(patience) = patience(start.elapsed(clock)?) else {
            return Ok(());
        };
        input.set_read_timeout(Some(patience))?;
        let count = input.read(&mut window)?;
        if count == 0 {
            return Ok(());
        }
        left -= count.min(left);
    }
    Ok(())
}
