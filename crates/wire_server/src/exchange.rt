//! The response to what is next on a connection, and its writing.
ghost use Rattle.std.specs.Prelude.{IfOk, List, ℕ, Option, None, ◌++◌};
ghost use Rattle.httparse.specs.Grammar.{RequestHead};
ghost use Rattle.wire_server.specs.Heads.{Holds};
ghost use Rattle.wire_server.specs.Answers.{Answered, IsReady};
ghost use Rattle.wire_server.specs.Arrivals.{Arrived, Whole};
ghost use Rattle.wire_server.specs.Exchanges.{Comes, IsRefusal, Responds};
ghost use Rattle.wire_server.specs.Responses.{replied, reply_bytes};
ghost use Rattle.streams.specs.Sends.{Sends};
ghost use Rattle.wire_server.specs.Sends.{SendsReply};

use crate::arrival::Message;
use crate::error::{Fault, WireError};
use crate::fields::{HeadFields, closes};
use crate::head::Head;
use crate::message::Received;
use crate::responder::{Begun, Responder};
use crate::response::Response;
use model::Refusal;
use std::alloc::{AllocError, Global};
use std::io;
use std::io::Write;
use streams::{Pieces, drain_prefix, send_bytes, send_pieces};

/// A response, and whether the connection is closed after it.
#[derive(Drop)]
pub(crate) struct Exchange {
    pub response: Response,
    pub close: bool,
}

/// The response to an input that doesn't begin with a message, after which the connection is closed.
fn refused(alloc: Global, fault: Fault) -> Result<Exchange, AllocError>
    ensures { IfOk result (IsRefusal fault) }
{
    let refusal = match fault {
        Fault::BadHead => Refusal::BadHead,
        Fault::BadLength => Refusal::BadBodyLength,
        Fault::TooLarge => Refusal::BodyTooLarge,
    };
    Ok(Exchange {
        response: Response::refused(alloc, refusal, None)?,
        close: true,
    })
}

/// The response to a message whose head is in `held` and whose body has arrived.
fn respond<T, A: Responder<T>>(
    responder: &A,
    state: &mut T,
    held: &[u8],
    head: &Head,
    ready: Begun<(A::Course, A::Body)>,
) -> Result<Response, AllocError>
    requires { (h : RequestHead) × (body : List ℕ) × Holds held.now head.now h
        × IsReady A.answers A.decides A.Body.represents state.old h body ready }
    ensures { (h : RequestHead) (body : List ℕ) → Holds held.now head.now h
        → IsReady A.answers A.decides A.Body.represents state.old h body ready
        → Answered A.answers state.old h body result state.new }
{
    match ready {
        Begun::Accepted((course, body)) => responder.answer(state, held, head, course, body),
        Begun::Refused(response) => Ok(response),
    }
}

/// Answers a message whose head is in the buffer and whose body has arrived, and drains the message from the buffer.
fn answer_message<T, A: Responder<T>>(
    responder: &A,
    state: &mut T,
    buffer: &mut Vec<u8>,
    head: &Head,
    size: usize,
    ready: Begun<(A::Course, A::Body)>,
) -> Result<Exchange, AllocError>
    requires { (n : ℕ) × (all : List ℕ) × Whole A.answers A.decides A.Body.represents state.old n all
        buffer.old.items head.now size ready }
    ensures { (n : ℕ) (all : List ℕ) → Whole A.answers A.decides A.Body.represents state.old n all buffer.old.items
        head.now size ready
        → Responds A.answers n all buffer.new.items state.old state.new result }
{
    let close = closes(&HeadFields::new(buffer, head));
    let response = respond(responder, state, buffer, head, ready)?;
    drain_prefix(buffer, head.spans.len.saturating_add(size));
    Ok(Exchange { response, close })
}

/// Answers the next message, which has arrived; `None` at the end of the input.
///
/// # Errors
///
/// Memory was refused: the message wasn't answered, or was answered and the response is dropped.
pub(crate) fn answer_next<T, A: Responder<T>>(
    alloc: Global,
    responder: &A,
    state: &mut T,
    buffer: &mut Vec<u8>,
    next: Received<Message<A::Course, A::Body>>,
) -> Result<Option<Exchange>, AllocError>
    requires { (n : ℕ) × (all : List ℕ) × (rest : Option (List ℕ))
        × Arrived A.answers A.decides A.Body.represents state.old n all buffer.old.items rest next }
    ensures { (n : ℕ) (all : List ℕ) (rest : Option (List ℕ))
        → Arrived A.answers A.decides A.Body.represents state.old n all buffer.old.items rest next
        → Comes A.answers n all buffer.new.items rest state.old state.new result }
{
    match next {
        Received::End => Ok(None),
        Received::Message((head, size, ready)) => {
            let exchange = answer_message(responder, state, buffer, &head, size, ready)?;
            Ok(Some(exchange))
        }
        Received::Faulty(fault) => Ok(Some(refused(alloc, fault)?)),
    }
}

/// Writes a head and a text.
fn send_both<W: Write>(output: &mut W, head: &[u8], text: &Pieces) -> io::Result<()>
    ensures { Sends (W.contents output.old) (W.contents output.new) (head.now ++ text.now) result }
{
    send_bytes(output, head)?;
    send_pieces(output, text)
}

/// Writes a reply: its head, and its text.
///
/// # Errors
///
/// `Write` if the writer fails, which then has a prefix of the reply, and not all; `Memory` if memory is refused, and
/// then nothing is written.
pub(crate) fn send_reply<W: Write>(
    alloc: Global,
    output: &mut W,
    response: &Response,
    close: bool,
) -> Result<(), WireError>
    ensures { SendsReply (W.contents output.old) (W.contents output.new) (reply_bytes close (replied response.now))
        result }
{
    let head = response.head(alloc, close)?;
    send_both(output, head.as_bytes(), &response.text)?;
    Ok(())
}
