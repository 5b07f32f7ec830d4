//! A connection: the one loop over its messages, and how it ended.
ghost use Rattle.std.specs.Prelude.{◌≡◌};
ghost use Rattle.wire_server.specs.Serves.{Served, reported};
ghost use Rattle.wire_server.specs.Sessions.{Says, SaysOf, failure, failure_of, result_of};

use crate::arrival::receive_next;
use crate::error::WireError;
use crate::exchange::{answer_next, send_reply};
use crate::responder::Responder;
use model::Failure;
use std::alloc::Global;
use std::io::{Read, Write};
use streams::send_bytes;

/// The number of messages that is reported: the count, or the greatest value if the count is larger.
fn reported(count: u128) -> u64
    ensures { result ≡ reported count }
{
    if count < u64::MAX as u128 {
        count as u64
    } else {
        u64::MAX
    }
}

/// Answers the messages of an input one after another, up to its end, the first that closes the connection, or an input
/// that doesn't begin with a message. Returns how many were answered, a number that stays at its greatest value. Except
/// at `Read` and `Memory`, at most 4,095 bytes after the last message are read. If no message begins there, at most
/// 20,479 are read, and at most 4,095 of them after a head, or after a line that shows it; or all, if the input ends
/// inside a body.
///
/// # Errors
///
/// `Read` if the reader failed while more was awaited; `Write` if the writer failed, or took no byte; `Memory` if
/// memory ran out. None after the reply that closes the connection was written.
pub fn serve<R: Read, W: Write, T, A: Responder<T>>(
    alloc: Global,
    input: &mut R,
    output: &mut W,
    responder: &A,
    state: &mut T,
) -> Result<u64, WireError>
    ensures { Served A.answers (R.remaining input.old) (R.remaining input.new) (W.contents output.old)
        (W.contents output.new) state.old state.new result }
{
    let mut buffer = Vec::new(alloc);
    'messages: for count in 0..u128::MAX {
        let next = receive_next(input, &mut buffer, responder, state)?;
        let Some(exchange) = answer_next(alloc, responder, state, &mut buffer, next)? else {
            return Ok(reported(count));
        };
        send_reply(alloc, output, &exchange.response, exchange.close)?;
        if exchange.close {
            return Ok(reported(count + 1));
        }
    }
    Ok(u64::MAX)
}

/// How a connection ended.
#[derive(Clone, Copy, PartialEq, Eq, Debug)]
pub enum End {
    /// The connection was served to its end: this number of messages was answered.
    Served(u64),
    /// The connection failed, and a line says why.
    Reported(WireError),
    /// The connection failed, and the line that says why couldn't be written whole.
    Unreported(WireError),
}

impl End {
    /// How many failures this counts as: 0 or 1.
    pub(crate) fn failures(self) -> u32
        ensures { result ≡ failure self }
    {
        match self {
            End::Served(_) => 0,
            End::Reported(_) | End::Unreported(_) => 1,
        }
    }
}

/// The failure as which the error of a connection is reported.
fn failure_of(fault: WireError) -> Failure
    ensures { result ≡ failure_of fault }
{
    match fault {
        WireError::Read => Failure::Input,
        WireError::Write => Failure::Output,
        WireError::Memory => Failure::Memory,
    }
}

/// Writes on `errors` why a connection failed. Returns whether the line was written whole.
fn report_end<E: Write>(fault: WireError, errors: &mut E) -> End
    ensures { SaysOf fault result (E.contents errors.old) (E.contents errors.new) }
{
    match send_bytes(errors, failure_of(fault).line().as_bytes()) {
        Ok(()) => End::Reported(fault),
        Err(_) => End::Unreported(fault),
    }
}

/// Serves one connection. If it fails, a line on `errors` says why: `failed: input`, `failed: output` or `failed:
/// memory`.
pub fn serve_connection<R: Read, W: Write, E: Write, T, A: Responder<T>>(
    alloc: Global,
    input: &mut R,
    output: &mut W,
    errors: &mut E,
    responder: &A,
    state: &mut T,
) -> End
    ensures served { Served A.answers (R.remaining input.old) (R.remaining input.new) (W.contents output.old)
        (W.contents output.new) state.old state.new (result_of result) }
    ensures said { Says result (E.contents errors.old) (E.contents errors.new) }
{
    match serve(alloc, input, output, responder, state) {
        Ok(count) => End::Served(count),
        Err(fault) => report_end(fault, errors),
    }
}
