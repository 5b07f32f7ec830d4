//! The name of a store object and its references, as on the command line.
ghost use Rattle.std.specs.Prelude.{◌≡◌, ◌⊎◌, IfOk, IfErr, IfSome, None, map, take, string_bytes, true, false};
ghost use Rattle.std.specs.List.{list_all};
ghost use Rattle.paths.specs.StorePath.{base_of};
ghost use Rattle.report.specs.Outputs.{change_of};
ghost use Rattle.tool_pure.specs.Object.{is_path_text, named_fault, object_fault};
ghost use Rattle.tool_pure.specs.Object as spec;
ghost use Rattle.tool_pure.specs.Stream.{IsStopAt, IsStopBy, ReadsFor};

use crate::input::read_input;
use crate::stops::Stop;
use paths::{Name, StoreDir, StorePath};
use report::{Failure, Refusal};
use std::alloc::{AllocError, Global};
use std::convert::AsStr;
use std::io::Read;
use streams::MAX_REFERENCES;

/// The store path that a path text names.
pub fn parse_reference(alloc: Global, dir: &StoreDir, text: &str) -> Result<StorePath, Stop>
    ensures ok { IfOk result (λ p. (p ≡ base_of dir.now text.now) × (is_path_text dir.now text.now ≡ true)) }
    ensures err { IfErr result
        (λ e. (e ≡ Stop.Failed Failure.Memory)
        ⊎ ((e ≡ Stop.Refused Refusal.BadStorePath) × (is_path_text dir.now text.now ≡ false))) }
{
    let path = StorePath::parse(alloc, dir, text)?;
    Ok(path)
}

/// The store paths that path texts name, in the order given.
pub fn parse_references<S: AsStr>(
    alloc: Global,
    dir: &StoreDir,
    texts: &[S],
) -> Result<Vec<StorePath>, Stop>
    ensures ok { IfOk result
        (λ v. (v.items ≡ map (λ t. base_of dir.now (S.text t)) texts.now)
        × (list_all (λ t. is_path_text dir.now (S.text t)) texts.now ≡ true)) }
    ensures err { IfErr result
        (λ e. (e ≡ Stop.Failed Failure.Memory)
        ⊎ ((e ≡ Stop.Refused Refusal.BadStorePath)
        × (list_all (λ t. is_path_text dir.now (S.text t)) texts.now ≡ false))) }
{
    let mut paths = Vec::new(alloc);
    for text in texts {
        let path = parse_reference(alloc, dir, text.as_str())?;
        paths.push(path)?;
    }
    Ok(paths)
}

/// The name of a store object, and its references in the order given.
#[derive(Drop)]
pub struct Object {
    /// The name.
    pub name: Name,
    /// The paths of its references.
    pub references: Vec<StorePath>,
}

/// The object of a name and the path texts of its references.
///
/// # Errors
///
/// `BadStoreName` if the name isn't one; else `BadStorePath` if a reference isn't a path text; `Memory` if memory was
/// refused.
pub fn parse_object<S: AsStr>(
    alloc: Global,
    dir: &StoreDir,
    name: &str,
    references: &[S],
) -> Result<Object, Stop>
    ensures ok { IfOk result
        (λ o. (named_fault dir.now name.now (map S.text references.now) ≡ None) × (o.name ≡ name.now)
        × (o.references.items ≡ map (base_of dir.now) (map S.text references.now))) }
    ensures err { IfErr result (IsStopBy (named_fault dir.now name.now (map S.text references.now))) }
{
    let name = Name::parse(alloc, name)?;
    let references = parse_references(alloc, dir, references)?;
    Ok(Object { name, references })
}

/// The object of a name and the path texts of its references, refused above the limit of references.
fn parse_small<S: AsStr>(
    alloc: Global,
    dir: &StoreDir,
    name: &str,
    references: &[S],
) -> Result<Object, Stop>
    ensures ok { IfOk result
        (λ o. (object_fault dir.now name.now (map S.text references.now) ≡ None) × (o.name ≡ name.now)
        × (o.references.items ≡ map (base_of dir.now) (map S.text references.now))) }
    ensures err { IfErr result (IsStopBy (object_fault dir.now name.now (map S.text references.now))) }
{
    let object = parse_object(alloc, dir, name, references)?;
    if object.references.len() > MAX_REFERENCES {
        return Err(Stop::Refused(Refusal::TooManyReferences));
    }
    Ok(object)
}

/// The object that the arguments name, and the bytes of the input, of which no more than `most` are
/// read: none where the name or the references are refused.
pub(crate) fn read_object<S: AsStr, R: Read>(
    alloc: Global,
    dir: &StoreDir,
    name: &str,
    references: &[S],
    input: &mut R,
    most: usize,
) -> Result<(Object, Vec<u8>), Stop>
    ensures object { IfOk result
        (λ x. (object_fault dir.now name.now (map S.text references.now) ≡ None) × (x.0.name ≡ name.now)
        × (x.0.references.items ≡ map (base_of dir.now) (map S.text references.now))) }
    ensures bytes { IfOk result (λ x. IfSome (R.remaining input.old) (λ all. x.1.items ≡ take most all)) }
    ensures err { IfErr result
        (IsStopAt (object_fault dir.now name.now (map S.text references.now)) most
        (change_of R.remaining input.old input.new)) }
    ensures reads { ReadsFor (object_fault dir.now name.now (map S.text references.now)) most (R.remaining input.old)
        (R.remaining input.new) }
{
    let object = parse_small(alloc, dir, name, references)?;
    let bytes = read_input(alloc, input, most)?;
    Ok((object, bytes))
}
