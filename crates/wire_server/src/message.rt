//! Messages, read from a reader in pieces of any size.
ghost use Rattle.std.specs.Prelude.{length};
ghost use Rattle.wire_server.specs.Messages.{ReadsMore, Receives, Starts, Announces};

use crate::error::{Fault, WireError};
use crate::fields::{HeadFields, length_of_body};
use crate::head::{Head, look_again};
use httparse::Status;
use std::io::Read;

/// What an input begins with.
#[derive(Drop)]
pub enum Received<T> {
    /// Nothing is left of it.
    End,
    /// A message, or as much of it as was asked for.
    Message(T),
    /// No message, for this fault.
    Faulty(Fault),
}

/// How many bytes are read at once.
const WINDOW_SIZE: usize = 4096;

/// Reads once, and appends what came. Returns whether anything came.
fn read_more<R: Read>(input: &mut R, buffer: &mut Vec<u8>) -> Result<bool, WireError>
    ensures { ReadsMore (R.remaining input.old) (R.remaining input.new) buffer.old.items buffer.new.items result }
{
    let mut window = [0; WINDOW_SIZE];
    match input.read(&mut window) {
        Ok(count) => {
            buffer.extend_from_slice(&window[..count])?;
            Ok(count > 0)
        }
        Err(_) => Err(WireError::Read),
    }
}

/// Reads until the buffer begins with a whole head, no head can begin it, or the input ends: `BadHead` is its one
/// fault.
///
/// # Errors
///
/// `Read` if the reader failed; `Memory` if memory was refused.
pub fn receive_start<R: Read>(
    input: &mut R,
    buffer: &mut Vec<u8>,
) -> Result<Received<Head>, WireError>
    ensures { Receives (Starts (length buffer.old.items)) (R.remaining input.old) (R.remaining input.new)
        buffer.old.items buffer.new.items result }
{
    if buffer.is_empty() && !read_more(input, buffer)? {
        return Ok(Received::End);
    }
    let mut seen = 0;
    let mut begun = false;
    'head: loop {
        let (has_begun, look) = look_again(buffer, seen, begun);
        begun = has_begun;
        match look {
            Ok(Status::Complete(head)) => return Ok(Received::Message(head)),
            Ok(Status::Partial) => {}
            Err(fault) => return Ok(Received::Faulty(fault)),
        }
        seen = buffer.len();
        if !read_more(input, buffer)? {
            return Ok(Received::Faulty(Fault::BadHead));
        }
    }
}

/// Reads until the buffer begins with a whole head that states the size of its body, or can't, or the input is at its
/// end. After the head the buffer may have part of the body.
///
/// # Errors
///
/// As `receive_start`.
pub fn receive_head<R: Read>(
    input: &mut R,
    buffer: &mut Vec<u8>,
) -> Result<Received<(Head, usize)>, WireError>
    ensures { Receives (Announces (length buffer.old.items)) (R.remaining input.old) (R.remaining input.new)
        buffer.old.items buffer.new.items result }
{
    let head = match receive_start(input, buffer)? {
        Received::Message(head) => head,
        Received::End => return Ok(Received::End),
        Received::Faulty(fault) => return Ok(Received::Faulty(fault)),
    };
    match length_of_body(&HeadFields::new(buffer, &head)) {
        Ok(size) => Ok(Received::Message((head, size))),
        Err(fault) => Ok(Received::Faulty(fault)),
    }
}
