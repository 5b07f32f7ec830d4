//! Bytes that are held in pieces: made of some bytes, and written out.
ghost use Rattle.std.specs.Prelude.{◌≡◌, IfOk};
ghost use Rattle.streams.specs.Sends.{Sends};

use crate::bytes::Pieces;
use crate::send::send_bytes;
use std::alloc::{AllocError, Global};
use std::io;
use std::io::Write;

/// The bytes in pieces.
///
/// # Errors
///
/// Memory was refused.
pub fn in_pieces(alloc: Global, bytes: &[u8]) -> Result<Pieces, AllocError>
    ensures { IfOk result (λ pieces. pieces ≡ bytes.now) }
{
    let mut pieces = Pieces::new(alloc);
    pieces.push(bytes)?;
    Ok(pieces)
}

/// Writes all bytes that are held in pieces, one piece after another; a prefix of them, and not all, if the writer
/// fails.
///
/// # Errors
///
/// As `send_bytes`.
pub fn send_pieces<W: Write>(output: &mut W, bytes: &Pieces) -> io::Result<()>
    ensures { Sends (W.contents output.old) (W.contents output.new) bytes.now result }
{
    let count = bytes.count();
    'pieces: for i in 0..count {
        send_bytes(output, bytes.piece(i))?;
    }
    Ok(())
}
