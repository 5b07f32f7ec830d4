//! The configuration: its file, and its settings.
ghost use Rattle.std.specs.Prelude.{◌≡◌, IfOk, IfErr, Ok, Some, is_some};
ghost use Rattle.policy.specs.Toml.{config_of};
ghost use Rattle.tool_pure.specs.Configuration.{IsConfig, opened_by, read_bytes};
ghost use Rattle.tool_pure.specs.Who.{StopsFor};

use crate::stops::Stop;
use policy::{Config, MAX_CONFIG_BYTES};
use report::Failure;
use std::alloc::Global;
use std::fs::File;
use std::io;
use std::io::Read;
use std::rt::Files;
use streams::{ReadError, read_at_most};

/// The number of bytes that are read at most: one more than a configuration may have.
const MOST_READ: usize = MAX_CONFIG_BYTES + 1;

/// The opened configuration file of a path, or why it wasn't opened. `None` if no path is given.
pub fn open_config<Rt: Files>(rt: &Rt, path: Option<&str>) -> Option<io::Result<Rt::File>>
    ensures { is_some result ≡ is_some path.entry }
{
    match path {
        Some(path) => Some(File::open(rt, path)),
        None => None,
    }
}

/// The text of a configuration file, of which no more than one byte above the limit is read.
fn file_text<R: Read + Drop>(alloc: Global, file: io::Result<R>) -> Result<Vec<u8>, Stop>
    ensures { IsConfig (opened_by R.remaining (Some file)) (read_bytes result) }
{
    let mut input = match file {
        Ok(input) => input,
        Err(_) => return Err(Stop::Failed(Failure::File)),
    };
    match read_at_most(alloc, &mut input, MOST_READ) {
        Ok(text) => Ok(text),
        Err(ReadError::Input) => Err(Stop::Failed(Failure::File)),
        Err(ReadError::Memory) => Err(Stop::Failed(Failure::Memory)),
    }
}

/// The text of a configuration file, or the empty text if no file is named. Of a file, no more than one byte above the
/// limit is read.
///
/// # Errors
///
/// `File` if the file wasn't opened or can't be read, whatever the error; `Memory` if memory was refused for bytes of
/// the file.
pub fn config_text<R: Read + Drop>(
    alloc: Global,
    file: Option<io::Result<R>>,
) -> Result<Vec<u8>, Stop>
    ensures { IsConfig (opened_by R.remaining file) (read_bytes result) }
{
    match file {
        Some(file) => file_text(alloc, file),
        None => Ok(Vec::new(alloc)),
    }
}

/// The settings of a configuration text.
pub fn settings(alloc: Global, text: &[u8]) -> Result<Config, Stop>
    ensures ok { IfOk result (λ c. config_of text.now ≡ Ok c) }
    ensures err { IfErr result (StopsFor (config_of text.now)) }
{
    let config = Config::from_toml(alloc, text)?;
    Ok(config)
}
