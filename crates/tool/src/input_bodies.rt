//! Requests made from a body on the input.
ghost use Rattle.std.specs.Prelude.{◌≡◌, ◌⊎◌, IfOk, IfErr, IfSome, ⊤};
ghost use Rattle.tool.specs.Bodies as spec;
ghost use Rattle.tool.specs.Requests.{IsAsked, IsAskedOver};
ghost use Rattle.wire_requests.specs.Kept.{bytes_of};

use paths::StoreDir;
use std::alloc::Global;
use std::io::Read;
use store_types::Request;
use tool_pure::{Failure, Stop, read_input, receive_input};
use wire_requests::{Parted, read_import, runtime_body};

/// All bytes of standard input.
fn read_whole<R: Read>(alloc: Global, input: &mut R) -> Result<Vec<u8>, Stop>
    ensures ok { IfOk result (λ bytes. IfSome (R.remaining input.old) (λ all. bytes.items ≡ all)) }
    ensures err { IfErr result (λ e. (e ≡ Stop.Failed Failure.Memory) ⊎ (e ≡ Stop.Failed Failure.Input)) }
{
    let bytes = read_input(alloc, input, usize::MAX)?;
    Ok(bytes)
}

/// The request that imports the object of a body, at its path.
fn parse_import(alloc: Global, dir: &StoreDir, body: Parted) -> Result<Request, Stop>
    ensures { IsAsked ⊥ (spec.Imports dir.now (bytes_of body)) result }
{
    Ok(read_import(alloc, dir, body)?)
}

/// The request that sets the runtime roots named in a body.
fn parse_runtime(alloc: Global, dir: &StoreDir, body: &[u8]) -> Result<Request, Stop>
    ensures { IsAsked ⊥ (spec.Replaces dir.now body.now) result }
{
    Ok(runtime_body(alloc, dir, body)?)
}

/// The request that imports an object at the path named on the input. The archive is checked and hashed as it arrives.
pub(crate) fn import<R: Read>(alloc: Global, dir: &StoreDir, input: &mut R) -> Result<Request, Stop>
    ensures { IsAskedOver ⊤ (spec.Imports dir.now) (R.remaining input.old) result }
{
    let mut body = Parted::new(alloc);
    receive_input(input, &mut body)?;
    parse_import(alloc, dir, body)
}

/// The request that sets the runtime roots to those on the input.
pub(crate) fn replace_runtime<R: Read>(
    alloc: Global,
    dir: &StoreDir,
    input: &mut R,
) -> Result<Request, Stop>
    ensures { IsAskedOver ⊤ (spec.Replaces dir.now) (R.remaining input.old) result }
{
    let body = read_whole(alloc, input)?;
    parse_runtime(alloc, dir, body.as_slice())
}
