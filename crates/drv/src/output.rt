//! The outputs of a derivation, each with its name and its path.
ghost use Rattle.std.specs.Prelude.{◌≡◌, string_bytes, IfOk};
ghost use Rattle.drv.specs.Answer.{Gives};
ghost use Rattle.drv.specs.Reading as reading;
ghost use Rattle.drv.specs.Reading.{name_at, base_in, path_at, output_at};
ghost use Rattle.drv.specs.View.{view, views};
ghost use Rattle.drv.specs.Outcome as outcome;

use crate::error::DrvError;
use crate::skipped_parts::skip_hash;
use crate::string::{after, string_of};
use paths::{Name, StoreDir, StorePath};
use std::alloc::{AllocError, Global};

/// An output: its name, and its path if it has one.
#[derive(Drop)]
pub struct Output {
    pub name: String,
    pub path: Option<StorePath>,
}

/// The store name that some bytes are.
fn name_in(alloc: Global, bytes: Vec<u8>) -> Result<String, DrvError>
    ensures { Gives (λ name. string_bytes name) result (reading.name_in bytes.items) }
{
    let Ok(name) = String::from_utf8(bytes) else {
        return Err(DrvError::BadDerivation);
    };
    Name::parse(alloc, name.as_str())?;
    Ok(name)
}

/// The path of an output, if some bytes are a full path in the store directory.
fn base_in(alloc: Global, bytes: &[u8], dir: &StoreDir) -> Result<StorePath, DrvError>
    ensures { Gives (λ path. path) result (base_in dir.now bytes.now) }
{
    if !bytes.starts_with(dir.as_str().as_bytes()) {
        return Err(DrvError::BadDerivation);
    }
    let Ok(text) = str::from_utf8(bytes) else {
        return Err(DrvError::BadDerivation);
    };
    Ok(StorePath::parse(alloc, dir, text)?)
}

/// The path that some bytes are, or none if there are no bytes.
fn path_in(alloc: Global, bytes: &[u8], dir: &StoreDir) -> Result<Option<StorePath>, DrvError>
    ensures { Gives (λ path. path) result (reading.path_in dir.now bytes.now) }
{
    if bytes.is_empty() {
        return Ok(None);
    }
    let path = base_in(alloc, bytes, dir)?;
    Ok(Some(path))
}

/// The name of an output, and what follows it.
#[tactic(auto, unfolding(crate::specs::Reading::name_at))]
fn name_of(alloc: Global, text: &[u8]) -> Result<(String, &[u8]), DrvError>
    ensures { Gives (λ x. (string_bytes x.0, x.1.now)) result (name_at text.now) }
{
    let (bytes, rest) = string_of(alloc, text)?;
    let name = name_in(alloc, bytes)?;
    Ok((name, rest))
}

/// The path of an output, if it has one, and what follows it.
#[tactic(auto, unfolding(crate::specs::Reading::path_at))]
fn path_of<'a>(
    alloc: Global,
    text: &'a [u8],
    dir: &StoreDir,
) -> Result<(Option<StorePath>, &'a [u8]), DrvError>
    ensures { Gives (λ x. (x.0, x.1.now)) result (path_at dir.now text.now) }
{
    let (bytes, rest) = string_of(alloc, text)?;
    let path = path_in(alloc, &bytes, dir)?;
    Ok((path, rest))
}

/// An output, and what follows it.
#[tactic(auto, unfolding(crate::specs::Reading::output_at))]
pub fn output_of<'a>(
    alloc: Global,
    text: &'a [u8],
    dir: &StoreDir,
) -> Result<(Output, &'a [u8]), DrvError>
    ensures { Gives (λ x. (view x.0, x.1.now)) result (output_at dir.now text.now) }
{
    let name = after(text, b'(').ok_or(DrvError::BadDerivation)?;
    let (name, rest) = name_of(alloc, name)?;
    let path = after(rest, b',').ok_or(DrvError::BadDerivation)?;
    let (path, rest) = path_of(alloc, path, dir)?;
    let rest = skip_hash(rest).ok_or(DrvError::BadDerivation)?;
    Ok((Output { name, path }, rest))
}

/// Whether no two outputs share a name.
pub fn have_own_names(alloc: Global, outputs: &[Output]) -> Result<bool, AllocError>
    ensures { IfOk result (λ own. own ≡ outcome.have_own_names (views outputs.now)) }
{
    let mut names = Vec::with_capacity(alloc, outputs.len())?;
    for output in outputs {
        names.push(output.name.as_str())?;
    }
    names.sort_unstable();
    names.dedup();
    Ok(names.len() == outputs.len())
}
