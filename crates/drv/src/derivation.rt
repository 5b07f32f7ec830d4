//! A derivation text, read from its beginning to its end.

ghost use Rattle.std.specs.Prelude.{◌≡◌, length};
ghost use Rattle.drv.specs.Answer.{Gives};
ghost use Rattle.drv.specs.Reading.{output_at, rest_of_items, list_at, with_items, listed};
ghost use Rattle.drv.specs.View.{views};

use crate::error::DrvError;
use crate::output::{Output, output_of};
use crate::skipped_parts::{skip_all_inputs, skip_derive, skip_process};
use crate::string::after;
use paths::StoreDir;
use std::alloc::Global;

/// The outputs of a list, and what follows it.
#[tactic(auto, unfolding(crate::specs::Reading::list_at))]
fn outputs_of<'a>(
    alloc: Global,
    text: &'a [u8],
    dir: &StoreDir,
) -> Result<(Vec<Output>, &'a [u8]), DrvError>
    ensures { Gives (λ x. (views x.0.items, x.1.now)) result (list_at (output_at dir.now) text.now) }
{
    let mut outputs = Vec::new(alloc);
    let items = after(text, b'[').ok_or(DrvError::BadDerivation)?;
    if let Some(rest) = after(items, b']') {
        return Ok((outputs, rest));
    }
    let (first, rest) = output_of(alloc, items, dir)?;
    outputs.push(first)?;
    more_outputs(alloc, outputs, rest, dir)
}

/// The given outputs and those that follow, each after a comma, and what follows the closing bracket.
fn more_outputs<'a>(
    alloc: Global,
    before: Vec<Output>,
    text: &'a [u8],
    dir: &StoreDir,
) -> Result<(Vec<Output>, &'a [u8]), DrvError>
    ensures { Gives
        (λ x. (views x.0.items, x.1.now)) result
        (with_items (views before.items) (rest_of_items (output_at dir.now) (length text.now) text.now)) }
{
    let mut outputs = before;
    let mut rest = text;
    loop {
        if let Some(end) = after(rest, b']') {
            return Ok((outputs, end));
        }
        let Some(item) = after(rest, b',') else {
            return Err(DrvError::BadDerivation);
        };
        let (output, next) = output_of(alloc, item, dir)?;
        outputs.push(output)?;
        rest = next;
    }
}

/// All outputs of a whole text.
#[tactic(auto, unfolding(crate::specs::Reading::listed))]
pub fn read(alloc: Global, text: &[u8], dir: &StoreDir) -> Result<Vec<Output>, DrvError>
    ensures { Gives (λ v. views v.items) result (listed dir.now text.now) }
{
    let list = skip_derive(text).ok_or(DrvError::BadDerivation)?;
    let (outputs, rest) = outputs_of(alloc, list, dir)?;
    let rest = skip_all_inputs(rest).ok_or(DrvError::BadDerivation)?;
    let rest = skip_process(rest).ok_or(DrvError::BadDerivation)?;
    if !rest.is_empty() {
        return Err(DrvError::BadDerivation);
    }
    Ok(outputs)
}
