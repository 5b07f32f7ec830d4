//! The next message of a connection, as it arrives.
ghost use Rattle.std.specs.Prelude.{ℕ, length};
ghost use Rattle.httparse.specs.Grammar.{RequestHead};
ghost use Rattle.wire_server.specs.Heads.{Holds};
ghost use Rattle.wire_server.specs.Messages.{HoldsHead, HoldsTo};
ghost use Rattle.wire_server.specs.Answers.{IsBegun};
ghost use Rattle.wire_server.specs.Arrivals.{Arrives};

use crate::error::{Fault, WireError};
use crate::head::Head;
use crate::keeper::{Nothing, receive_body};
use crate::message::{Received, receive_head};
use crate::responder::{Begun, Responder};
use std::io::Read;

/// A message that has arrived whole: its head, the length of its body, and how it is answered. What was kept for the
/// body stands for it.
pub(crate) type Message<C, B> = (Head, usize, Begun<(C, B)>);

/// Receives the body of a message whose head is in `held`, as the head decided. The body of a refused message is read
/// and dropped.
fn receive_rest<R: Read, T, A: Responder<T>>(
    input: &mut R,
    held: &[u8],
    state: &T,
    head: Head,
    size: usize,
    begun: Begun<(A::Course, A::Body)>,
) -> Result<Received<Message<A::Course, A::Body>>, WireError>
    requires head { HoldsHead held.now head size }
    requires begun { (h : RequestHead) → Holds held.now head h
        → IsBegun A.answers A.decides A.Body.represents state.now h begun }
    ensures { (n : ℕ) → HoldsTo n head.spans.len held.now → Arrives A.answers A.decides A.Body.represents state.now n
        (R.remaining input.old) (R.remaining input.new) held.now held.now result }
{
    match begun {
        Begun::Accepted((course, mut body)) => {
            if receive_body(input, held, &head, size, &mut body)? {
                Ok(Received::Message((head, size, Begun::Accepted((course, body)))))
            } else {
                Ok(Received::Faulty(Fault::BadLength))
            }
        }
        Begun::Refused(response) => {
            if receive_body(input, held, &head, size, &mut Nothing)? {
                Ok(Received::Message((head, size, Begun::Refused(response))))
            } else {
                Ok(Received::Faulty(Fault::BadLength))
            }
        }
    }
}

/// Receives the body of a message whose head is in `held`.
fn receive_message<R: Read, T, A: Responder<T>>(
    input: &mut R,
    held: &[u8],
    responder: &A,
    state: &T,
    head: Head,
    size: usize,
) -> Result<Received<Message<A::Course, A::Body>>, WireError>
    requires { HoldsHead held.now head size }
    ensures { (n : ℕ) → HoldsTo n head.spans.len held.now → Arrives A.answers A.decides A.Body.represents state.now n
        (R.remaining input.old) (R.remaining input.new) held.now held.now result }
{
    let begun = responder.begin(state, held, &head, size)?;
    receive_rest::<R, T, A>(input, held, state, head, size, begun)
}

/// Receives the next message of a connection, whole.
///
/// # Errors
///
/// `Read` if the reader failed; `Memory` if memory was refused for a head, for what the head decides, or for a body.
pub(crate) fn receive_next<R: Read, T, A: Responder<T>>(
    input: &mut R,
    buffer: &mut Vec<u8>,
    responder: &A,
    state: &T,
) -> Result<Received<Message<A::Course, A::Body>>, WireError>
    ensures { Arrives A.answers A.decides A.Body.represents state.now (length buffer.old.items)
        (R.remaining input.old) (R.remaining input.new) buffer.old.items buffer.new.items result }
{
    match receive_head(input, buffer)? {
        Received::Message((head, size)) => {
            receive_message(input, buffer, responder, state, head, size)
        }
        Received::End => Ok(Received::End),
        Received::Faulty(fault) => Ok(Received::Faulty(fault)),
    }
}
