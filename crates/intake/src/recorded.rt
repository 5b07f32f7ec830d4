//! The outputs that a derivation records, by their names.

ghost use Rattle.std.specs.Prelude.{◌≡◌, ◌≢◌, List, ℕ, Ok, Err, IfOk, IfErr};
ghost use Rattle.std.specs.FinMap as finite;
ghost use Rattle.drv.specs.declared.error.DrvError.TheVariants.{Memory as memory};
ghost use Rattle.drv.specs.Outcome.{outputs_of};
ghost use Rattle.drv.specs.View.{pairs};
ghost use Rattle.intake.specs.Recorded.{outputs_view};

use drv::DrvError;
use paths::{StoreDir, StorePath};
use std::alloc::{AllocError, Global};
use std::collections::BTreeMap;

/// The paths of outputs by their names.
fn by_name(
    alloc: Global,
    found: Vec<(String, StorePath)>,
) -> Result<BTreeMap<String, StorePath>, AllocError>
    ensures { IfOk result (λ map. outputs_view map.entries ≡ finite.from_entries (pairs found.items)) }
{
    let mut left = found;
    let mut map = BTreeMap::new(alloc);
    while let Some((name, path)) = left.pop() {
        map.insert(name, path)?;
    }
    Ok(map)
}

/// The outputs that the derivation of a text records, by their names: the path of each output that has one.
///
/// ```rust
/// use paths::StoreDir;
///
/// let dir = StoreDir::parse(alloc, "/nix/store")?;
/// let text =
///     br#"Derive([("out","/nix/store/11111111111111111111111111111111-o","","")],[],[],"p","b",[],[])"#;
/// for (name, path) in &intake::recorded_outputs(alloc, &dir, text)? {
///     assert_eq!(rt; name.as_str(), "out");
///     assert_eq!(rt; path.as_str(), "11111111111111111111111111111111-o");
/// }
/// ```
///
/// # Errors
///
/// Those of `drv::outputs`: `BadDerivation`, `DoubleOutput`, and `Memory`, which says nothing of the text.
pub fn recorded_outputs(
    alloc: Global,
    dir: &StoreDir,
    text: &[u8],
) -> Result<BTreeMap<String, StorePath>, DrvError>
    ensures ok { IfOk result (λ map. (found : List (List ℕ × List ℕ)) × (outputs_of dir.now text.now ≡ Ok found)
        × (outputs_view map.entries ≡ finite.from_entries found)) }
    ensures err { IfErr result (λ e. e ≢ memory → outputs_of dir.now text.now ≡ Err e) }
{
    let found = drv::outputs(alloc, text, dir)?;
    Ok(by_name(alloc, found)?)
}
