//! The runtime roots of a body.
ghost use Rattle.std.specs.Prelude.{◌≡◌, IfOk, Err, List, ℕ, string_bytes};
ghost use Rattle.wire_bodies.specs.Values.{Answers, values, each};
ghost use Rattle.wire_bodies.specs.Kinds.{root_text, is_space};
ghost use Rattle.std.specs.List.{before_first, after_first};
ghost use Rattle.wire_bodies.specs.Bodies.{IsRuntime, labelled};

use crate::entries::are_known;
use crate::error::BodyError;
use crate::lines::Lines;
use crate::values::path_of;
use paths::{StoreDir, StorePath};
use std::alloc::Global;

/// The parts of a text before the first space and after it.
fn parts_at_space(text: &str) -> (&str, &str)
    ensures label { result.0.now ≡ before_first is_space text.now }
    ensures path { result.1.now ≡ after_first is_space text.now }
{
    match text.split_once(' ') {
        Some(parts) => parts,
        None => (text, ""),
    }
}

/// The label and the path that a text names, with the first space between. The label isn't examined.
fn root_of(alloc: Global, dir: &StoreDir, text: &str) -> Result<(String, StorePath), BodyError>
    ensures { Answers (λ root. (string_bytes root.0, root.1)) (root_text dir.now text.now) result }
{
    let (label, path) = parts_at_space(text);
    let path = path_of(alloc, dir, path)?;
    let label = String::from_str(alloc, label)?;
    Ok((label, path))
}

/// The roots of the entries of a key, in their order.
fn each_root(
    alloc: Global,
    dir: &StoreDir,
    entries: &Lines<'_>,
    key: &str,
) -> Result<Vec<(String, StorePath)>, BodyError>
    ensures { Answers (λ roots. labelled roots.items) (each (root_text dir.now) (values key.now entries.now)) result }
{
    let mut roots = Vec::new(alloc);
    let mut left = entries.again();
    'lines: loop {
        let Some((name, value)) = left.take_entry() else {
            return Ok(roots);
        };
        if name == key {
            roots.push(root_of(alloc, dir, value)?)?;
        }
    }
}

/// The labels and paths that some entries name: any number of `root`.
///
/// # Errors
///
/// `BadBodyHead` if and only if the entries aren't such; `Memory` if memory was refused.
pub fn runtime_head(
    alloc: Global,
    dir: &StoreDir,
    entries: &Lines<'_>,
) -> Result<Vec<(String, StorePath)>, BodyError>
    ensures ok { IfOk result (λ roots. IsRuntime dir.now entries.now (labelled roots.items)) }
    ensures bad { result ≡ Err BodyError.BadBodyHead
        → (roots : List (List ℕ × List ℕ)) → IsRuntime dir.now entries.now roots → ⊥ }
{
    if !are_known(entries, &["root"]) {
        return Err(BodyError::BadBodyHead);
    }
    each_root(alloc, dir, entries, "root")
}
