//! An input, to a bound or all of it.
ghost use Rattle.std.specs.Prelude.{◌≡◌, ◌++◌, IfOk, IfSome, OnOk, take};
ghost use Rattle.nar.specs.Tree.{IsBytes};
ghost use Rattle.intake.specs.Arrival.{bytes_in};
ghost use Rattle.tool_pure.specs.Archive.{max_prefix};
ghost use Rattle.report.specs.Outputs.{change_of};
ghost use Rattle.tool_pure.specs.Stream.{ReadsUpTo};

use crate::archive::MOST_OF_ARCHIVE;
use crate::stops::Stop;
use intake::Intake;
use report::Failure;
use std::alloc::Global;
use std::io::Read;
use streams::{Sink, read_at_most, receive_at_most};

/// The bytes of standard input, of which no more than `most` are read.
///
/// # Errors
///
/// `Input` if the reader failed before these bytes were read, whatever its error; `Memory` if memory was refused for
/// bytes that were read.
pub fn read_input<R: Read>(alloc: Global, input: &mut R, most: usize) -> Result<Vec<u8>, Stop>
    ensures ok { IfOk result (λ bytes. IfSome (R.remaining input.old) (λ all. bytes.items ≡ take most all)) }
    ensures read { ReadsUpTo most (change_of R.remaining input.old input.new) result }
{
    let bytes = read_at_most(alloc, input, most)?;
    Ok(bytes)
}

/// The archive on standard input, checked and hashed as it arrives. No more bytes are read than decide what it is.
///
/// # Errors
///
/// As `read_input`.
pub fn receive_archive<R: Read>(alloc: Global, input: &mut R) -> Result<Intake, Stop>
    ensures ok { IfOk result (λ nar. IfSome (R.remaining input.old) (λ all. bytes_in nar ≡ take max_prefix all)) }
    ensures bytes { IfOk result (λ nar. IsBytes (bytes_in nar)) }
    ensures read { ReadsUpTo max_prefix (change_of R.remaining input.old input.new) result }
{
    let mut nar = Intake::new(alloc);
    receive_at_most(input, MOST_OF_ARCHIVE, &mut nar)?;
    nar.are_bytes();
    Ok(nar)
}

/// More bytes than memory holds.
const UNBOUNDED: usize = usize::MAX;

/// All of standard input, passed on piece by piece as it arrives, however long it is.
///
/// # Errors
///
/// `Input` if the reader failed, whatever its error; `Memory` if the sink was refused memory, or the input has more
/// bytes than memory.
pub fn receive_input<R: Read, S: Sink>(input: &mut R, sink: &mut S) -> Result<(), Stop>
    ensures ok { OnOk result
        (IfSome (R.remaining input.old) (λ all. S.received sink.new ≡ S.received sink.old ++ all)) }
    ensures read { ReadsUpTo UNBOUNDED (change_of R.remaining input.old input.new) result }
{
    let count = receive_at_most(input, UNBOUNDED, sink)?;
    if count < UNBOUNDED {
        Ok(())
    } else {
        Err(Stop::Failed(Failure::Memory))
    }
}
