//! An input, passed on piece by piece as it arrives.
ghost use Rattle.std.specs.Prelude.{◌<◌, length};
ghost use Rattle.streams.specs.Reads.{ReadsOn, Receives};

use crate::error::ReadError;
use crate::limits::PIECE_SIZE;
use crate::sink::Sink;
use std::io::Read;

/// Reads once into a window, and passes the bytes on. Returns how many came, or `None` at the end of the input.
fn read_on<R: Read, S: Sink>(
    input: &mut R,
    window: &mut [u8],
    sink: &mut S,
) -> Result<Option<usize>, ReadError>
    requires { 0 < length window.old }
    ensures { ReadsOn (length window.old) (R.remaining input.old) (R.remaining input.new) (S.received sink.old)
        (S.received sink.new) result }
{
    let count = input.read(window)?;
    if count == 0 {
        return Ok(None);
    }
    sink.take(&window[..count])?;
    Ok(Some(count))
}

/// Reads an input to its end, but no more than `most` bytes, passes each piece on as it arrives, and returns how many
/// bytes came.
///
/// # Errors
///
/// `Input` if the reader failed, whatever the kind of its error, an interrupted read too: the sink has received all
/// bytes that came. `Memory` if the sink was refused memory for a piece that came.
pub fn receive_at_most<R: Read, S: Sink>(
    input: &mut R,
    most: usize,
    sink: &mut S,
) -> Result<usize, ReadError>
    ensures { Receives most (R.remaining input.old) (R.remaining input.new) (S.received sink.old) (S.received sink.new)
        result }
{
    let mut window = [0; PIECE_SIZE];
    let mut left = most;
    'reads: while left > 0 {
        let room = left.min(PIECE_SIZE);
        let Some(count) = read_on(input, &mut window[..room], sink)? else {
            return Ok(most - left);
        };
        left -= count;
    }
    Ok(most)
}
