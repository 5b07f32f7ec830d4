//! The two directions of a connection of a port.
ghost use Rattle.std.specs.Prelude.{◌≡◌, ◌≤◌, IfOk, IfErr, IsSome, is_ok, length, nat_lt, nat_le, option_and_then};
ghost use Rattle.std.specs.Prelude.{true, false};
ghost use Rattle.std.specs.Io.{ReadsAtMost, WritesAtMost};
ghost use Rattle.std.specs.Io.KnownBytes.{ReadConsumes, WriteAppends};
ghost use Rattle.std.specs.Result.{result_ok};
ghost use Rattle.std.specs.Duration.{as_nanos};

use std::io;
use std::io::{Error, ErrorKind, Read, Write};
use std::rt::Clock;
use std::time::{Duration, Instant};

/// The least number of seconds that a write takes if its time limit is over. The limit is 60 seconds by the ticks of
/// the system, which may end a little earlier than 60 seconds by the clock.
const OVER: u64 = 59;

/// The input of a connection: what its stream has left. Each read fails if the connection couldn't be prepared.
#[derive(Drop)]
pub struct Incoming<R> {
    stream: R,
    is_ready: bool,
}

/// The output of a connection: what its stream has. Each write fails if the connection couldn't be prepared, and after
/// a write that hit its time limit before all of its bytes were sent.
#[derive(Drop)]
pub struct Outgoing<'a, W, C: Clock> {
    stream: Option<W>,
    is_stuck: bool,
    clock: &'a C,
}

/// The error of each read and write on a connection that couldn't be prepared, and of each write after a time limit.
fn unprepared() -> Error {
    Error::from(ErrorKind::NotConnected)
}

/// Whether a write was short. A write is short if it hit its time limit, or if a signal came that stops the process.
fn is_short(count: usize, len: usize) -> bool
    ensures { result ≡ nat_lt count len }
{
    count < len
}

/// Whether a short write that waited so long hit its time limit.
fn is_over(waited: Duration) -> bool
    ensures { result ≡ nat_le 59_000_000_000 (as_nanos waited) }
{
    waited >= Duration::from_secs(OVER)
}

/// Whether a short write that began then hit its time limit, which is assumed where the clock fails.
fn is_stuck<C: Clock>(clock: &C, start: Instant) -> bool {
    match start.elapsed(clock) {
        Ok(waited) => is_over(waited),
        Err(_) => true,
    }
}

/// The two directions of a connection. `output` is a second handle of it, or why it couldn't be prepared.
pub(crate) fn directions<'a, R, W, C: Clock>(
    clock: &'a C,
    input: R,
    output: io::Result<W>,
) -> (Incoming<R>, Outgoing<'a, W, C>)
    ensures ready { result.0.is_ready ≡ is_ok output }
    ensures stream { result.1.stream ≡ result_ok output }
    ensures begins { result.1.is_stuck ≡ false }
{
    let incoming = Incoming {
        stream: input,
        is_ready: output.is_ok(),
    };
    let outgoing = Outgoing {
        stream: output.ok(),
        is_stuck: false,
        clock,
    };
    (incoming, outgoing)
}

impl<R> Incoming<R> {
    /// The connection.
    pub(crate) fn stream(&mut self) -> &mut R {
        &mut self.stream
    }
}

impl<R: Read> Read for Incoming<R> {
    ghost remaining = { λ input. R.remaining input.stream };

    fn read(&mut self, buf: &mut [u8]) -> io::Result<usize>
        ensures bound { ReadsAtMost result buf.new }
        ensures bytes { ReadConsumes (R.remaining self.old.stream) (R.remaining self.new.stream) result buf.new }
        // A connection that couldn't be prepared isn't one that has ended.
        ensures prepared { IfOk result (λ _. self.old.is_ready ≡ true) }
    {
        if !self.is_ready {
            return Err(unprepared());
        }
        self.stream.read(buf)
    }
}

impl<'a, W: Write, C: Clock> Write for Outgoing<'a, W, C> {
    ghost contents = { λ output. option_and_then W.contents output.stream };

    /// Writes some bytes. After a short write that hit its time limit, each further write fails: a count above 0 may
    /// come from room in the system's own buffer, and is no sign of a peer who reads.
    fn write(&mut self, buf: &[u8]) -> io::Result<usize>
        ensures bound { WritesAtMost result buf.now }
        ensures bytes { WriteAppends (option_and_then W.contents self.old.stream)
            (option_and_then W.contents self.new.stream) result buf.now }
        // Nothing is sent on a connection that couldn't be prepared, or that is stuck. No clause says when a write gets
        // stuck, since the clock has no contract.
        ensures prepared { IfOk result (λ _. IsSome self.old.stream) }
        ensures before { IfOk result (λ _. self.old.is_stuck ≡ false) }
        // Only a short write can hit its time limit.
        ensures whole { IfOk result (λ count. length buf.now ≤ count → self.new.is_stuck ≡ false) }
        ensures failed { IfErr result (λ _. self.new.is_stuck ≡ self.old.is_stuck) }
    {
        let Some(stream) = &mut self.stream else {
            return Err(unprepared());
        };
        if self.is_stuck {
            return Err(unprepared());
        }
        let start = Instant::now(self.clock)?;
        let count = stream.write(buf)?;
        self.is_stuck = is_short(count, buf.len()) && is_stuck(self.clock, start);
        Ok(count)
    }

    fn flush(&mut self) -> io::Result<()> {
        Ok(())
    }
}
