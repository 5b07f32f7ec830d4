//! Bytes, written to a writer that takes any number of them a call.
ghost use Rattle.streams.specs.Sends.{Sends};

use std::io;
use std::io::{Error, ErrorKind, Write};

/// Writes all of some bytes, in as many calls as the writer needs; a prefix of them, and not all, if it fails.
///
/// # Errors
///
/// The error of the first call that fails, an interrupted one too; `WriteZero` if a call takes no byte.
pub fn send_bytes<W: Write>(output: &mut W, bytes: &[u8]) -> io::Result<()>
    ensures { Sends (W.contents output.old) (W.contents output.new) bytes.now result }
{
    let mut done = 0;
    'writes: while done < bytes.len() {
        let count = output.write(&bytes[done..])?;
        if count == 0 {
            return Err(Error::from(ErrorKind::WriteZero));
        }
        done += count;
    }
    Ok(())
}
