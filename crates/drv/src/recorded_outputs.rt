//! The outputs that a derivation records.

ghost use Rattle.std.specs.Prelude.{◌≡◌, ◌≢◌, ◌⊎◌, List, ℕ, Ok, Err, IfOk, IfErr, MatchResult};
ghost use Rattle.drv.specs.declared.error.DrvError.{DrvError as Fault};
ghost use Rattle.drv.specs.declared.error.DrvError.TheVariants.{Memory as memory};
ghost use Rattle.drv.specs.Derivation as derivation;
ghost use Rattle.drv.specs.Derivation.{Records};
ghost use Rattle.drv.specs.Outcome.{IsFault, outputs_of};
ghost use Rattle.drv.specs.View.{views, pairs};

use crate::derivation::read;
use crate::error::DrvError;
use crate::output::{Output, have_own_names};
use paths::{StoreDir, StorePath};
use std::alloc::{AllocError, Global};

/// The outputs that have a path, in order.
fn recorded(alloc: Global, outputs: Vec<Output>) -> Result<Vec<(String, StorePath)>, AllocError>
    ensures { IfOk result (λ v. pairs v.items ≡ derivation.recorded (views outputs.items)) }
{
    let mut found = Vec::new(alloc);
    for Output { name, path } in outputs {
        if let Some(path) = path {
            found.push((name, path))?;
        }
    }
    Ok(found)
}

fn outcome(alloc: Global, text: &[u8], dir: &StoreDir) -> Result<Vec<(String, StorePath)>, DrvError>
    ensures { MatchResult result (λ v. outputs_of dir.now text.now ≡ Ok (pairs v.items))
        (λ e. e ≢ memory → outputs_of dir.now text.now ≡ Err e) }
{
    let outputs = read(alloc, text, dir)?;
    if !have_own_names(alloc, &outputs)? {
        return Err(DrvError::DoubleOutput);
    }
    Ok(recorded(alloc, outputs)?)
}

/// The outputs that the derivation of a text records: name and path of each output that has a path, in the text's
/// order.
///
/// The format is that of the Nix manual's section on derivations (ATerm): `Derive(` and lists of outputs, inputs and
/// sources, platform, builder, arguments and environment, with nothing between the parts and nothing after the last
/// bracket. The escapes in strings are `\"`, `\\`, `\n`, `\r` and `\t`, and no other. The name of an output is a
/// store name, its path is empty or a full path in the store directory; other strings aren't examined.
///
/// ```rust
/// use paths::StoreDir;
///
/// let dir = StoreDir::parse(alloc, "/nix/store")?;
/// let text =
///     br#"Derive([("out","/nix/store/11111111111111111111111111111111-o","","")],[],[],"p","b",[],[])"#;
/// for (name, path) in drv::outputs(alloc, text, &dir)? {
///     assert_eq!(rt; name.as_str(), "out");
///     assert_eq!(rt; path.as_str(), "11111111111111111111111111111111-o");
/// }
/// ```
///
/// # Errors
///
/// `BadDerivation` if and only if the text isn't such a text; `DoubleOutput` if and only if it is and two outputs share
/// a name, also if their paths are empty; `Memory` if memory was refused, which says nothing about the text.
pub fn outputs(
    alloc: Global,
    text: &[u8],
    dir: &StoreDir,
) -> Result<Vec<(String, StorePath)>, DrvError>
    // The result is the recorded outputs of the text, and no two outputs of the text share a name.
    ensures found { IfOk result (λ v. Records dir.now text.now (pairs v.items)) }
    // A fault that is returned is the text's.
    ensures fault { IfErr result (λ e. e ≢ memory → IsFault dir.now text.now e) }
    // Recorded outputs are given, unless memory is refused.
    ensures each_found { (xs : List (List ℕ × List ℕ)) → Records dir.now text.now xs
        → MatchResult result (λ v. pairs v.items ≡ xs) (λ e. e ≡ memory) }
    // The text's fault is returned, unless memory is refused.
    ensures each_fault { (f : Fault) → IsFault dir.now text.now f
        → MatchResult result (λ _. ⊥) (λ e. e ≢ memory → e ≡ f) }
    // So the answer is that of the function in specs/.
    ensures outcome { MatchResult result (λ v. outputs_of dir.now text.now ≡ Ok (pairs v.items))
        (λ e. e ≢ memory → outputs_of dir.now text.now ≡ Err e) }
{
    outcome(alloc, text, dir)
}
