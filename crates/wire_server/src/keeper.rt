//! Bodies that are kept as they come.
ghost use Rattle.std.specs.Prelude.{◌++◌, ℕ, List, OnOk, ◌≤◌, ◌<◌, length, ⊤};
ghost use Rattle.wire_server.specs.Bodies.{KeepsBody, KeepsOn, KeepsRest};

use crate::error::WireError;
use crate::head::Head;
use std::alloc::AllocError;
use std::io::Read;
use streams::PIECE_SIZE;

/// Keeps the body of a message as it comes, or as much of the body as is needed.
pub trait Keeper {
    /// Whether what is kept stands for these bytes: all that have come.
    ghost represents: { Self → List ℕ → Type 0 };

    /// Takes one more piece.
    ///
    /// # Errors
    ///
    /// Memory was refused.
    fn keep(&mut self, piece: &[u8]) -> Result<(), AllocError>
        ensures { OnOk result ((all : List ℕ) → represents self.old all → represents self.new (all ++ piece.now)) };
}

/// What keeps nothing of a body, which is read to its end and dropped.
#[derive(Clone, Copy)]
pub(crate) struct Nothing;

impl Keeper for Nothing {
    ghost represents = { λ _ _. ⊤ };

    fn keep(&mut self, _piece: &[u8]) -> Result<(), AllocError> {
        Ok(())
    }
}

/// Reads once into a window, at most what is missing of a body, and keeps the bytes. Returns how many came: none at the
/// end of the input.
fn keep_next<R: Read, K: Keeper>(
    input: &mut R,
    window: &mut [u8; PIECE_SIZE],
    left: usize,
    body: &mut K,
) -> Result<usize, WireError>
    requires { 0 < left }
    ensures { KeepsOn left (R.remaining input.old) (R.remaining input.new) (K.represents body.old)
        (K.represents body.new) result }
{
    let room = left.min(PIECE_SIZE);
    match input.read(&mut window[..room]) {
        Ok(count) => {
            body.keep(&window[..count])?;
            Ok(count)
        }
        Err(_) => Err(WireError::Read),
    }
}

/// Keeps `size` bytes as they come. Returns whether all of them came.
fn keep_out<R: Read, K: Keeper>(input: &mut R, size: usize, body: &mut K) -> Result<bool, WireError>
    ensures { KeepsRest (R.remaining input.old) (R.remaining input.new) size (K.represents body.old)
        (K.represents body.new) result }
{
    let mut window = [0; PIECE_SIZE];
    let mut left = size;
    'reads: while left > 0 {
        let count = keep_next(input, &mut window, left, body)?;
        if count == 0 {
            return Ok(false);
        }
        left -= count;
    }
    Ok(true)
}

/// Keeps the `left` bytes that are missing of a body, as they come. Returns whether all of them came. If none is
/// missing, nothing is read and no window is made.
fn keep_rest<R: Read, K: Keeper>(
    input: &mut R,
    left: usize,
    body: &mut K,
) -> Result<bool, WireError>
    ensures { KeepsRest (R.remaining input.old) (R.remaining input.new) left (K.represents body.old)
        (K.represents body.new) result }
{
    if left == 0 {
        return Ok(true);
    }
    keep_out(input, left, body)
}

/// Keeps the body, of a given length, that follows a head: the part that is held, and the rest as it arrives. Returns
/// whether all of it came. Nothing is read beyond the body.
///
/// # Errors
///
/// `Read` if the reader failed; `Memory` if memory was refused.
pub fn receive_body<R: Read, K: Keeper>(
    input: &mut R,
    held: &[u8],
    head: &Head,
    size: usize,
    body: &mut K,
) -> Result<bool, WireError>
    requires { head.now.spans.len ≤ length held.now }
    ensures { KeepsBody (R.remaining input.old) (R.remaining input.new) held.now head.now.spans.len size
        (K.represents body.old) (K.represents body.new) result }
{
    let after = &held[head.spans.len..];
    let (first, _) = after.split_at(size.min(after.len()));
    body.keep(first)?;
    keep_rest(input, size - first.len(), body)
}
