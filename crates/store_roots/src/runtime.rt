//! Replacing the runtime roots.

ghost use Rattle.std.specs.Prelude.{◌≡◌, IfOk, OnOk, if◌then◌else◌, map};
ghost use Rattle.std.specs.List.{filter};
ghost use Rattle.std.specs.List.Sorted.{IsStrictlySortedBy};
ghost use Rattle.paths.specs.Root.{set_of};
ghost use Rattle.policy.specs.Settings.{Settings};
ghost use Rattle.model.specs.World.{World, pair_cmp};
ghost use Rattle.tables_outline.specs.Maps.{labelled_bytes, seen_set};
ghost use Rattle.tables_outline.specs.Outline.{outline_of};
ghost use Rattle.model.specs.Tests.{refusal};
ghost use Rattle.model.specs.Effects.{valid_pairs as valid_pairs_of};
ghost use Rattle.store_types.specs.Tested.{Gives};
ghost use Rattle.policy.specs.Caller.{Caller};
ghost use Rattle.store_promises.specs.Meets.{IsMet};
ghost use Rattle.std.specs.FinMap as finite;
ghost use Rattle.model.specs.Request as asked;

use crate::names::are_runtime_labels;
use paths::StorePath;
use sqlite::Alter;
use std::alloc::{AllocError, Global};
use std::collections::BTreeSet;
use store_promises::answers::answered;
use store_types::{Answer, Refusal, Stop};
use tables_outline::Outline;
use tables_writes::Tables;

/// Adds a pair to a set, if the target of the pair is valid.
fn put_valid(
    outline: &Outline,
    valid: &mut BTreeSet<(String, StorePath)>,
    pair: (String, StorePath),
) -> Result<(), AllocError>
    ensures { OnOk result (seen_set pair_cmp labelled_bytes valid.new.keys
        ≡ (if finite.contains_key outline.now.objects pair.1 then finite.insert
        (seen_set pair_cmp labelled_bytes valid.old.keys) (labelled_bytes pair) tt else seen_set pair_cmp labelled_bytes
        valid.old.keys)) }
{
    if !outline.has(&pair.1) {
        return Ok(());
    }
    valid.insert(pair)?;
    Ok(())
}

/// The pairs whose target is valid, as a set.
fn valid_pairs(
    alloc: Global,
    outline: &Outline,
    pairs: Vec<(String, StorePath)>,
) -> Result<BTreeSet<(String, StorePath)>, AllocError>
    ensures { IfOk result
        (λ s. seen_set pair_cmp labelled_bytes s.keys
        ≡ set_of pair_cmp (filter
        (λ p. finite.contains_key outline.now.objects p.1) (map labelled_bytes pairs.items))) }
{
    let mut left = pairs;
    let mut valid = BTreeSet::new(alloc);
    while let Some(pair) = left.pop() {
        put_valid(outline, &mut valid, pair)?;
    }
    Ok(valid)
}

/// Tests runtime roots that are to be set. Returns those whose target is valid.
pub fn prepare_runtime(
    alloc: Global,
    outline: &Outline,
    pairs: Vec<(String, StorePath)>,
) -> Result<BTreeSet<(String, StorePath)>, Stop>
    ensures valid { IfOk result
        (λ v. seen_set pair_cmp labelled_bytes v.keys
        ≡ set_of pair_cmp (filter
        (λ p. finite.contains_key outline.now.objects p.1) (map labelled_bytes pairs.items))) }
    ensures given { (s : Settings) (w : World) → outline_of w ≡ outline.now
        → Gives (λ v. seen_set pair_cmp labelled_bytes v.keys) result
        (refusal s w (asked.replace_runtime (map labelled_bytes pairs.items)))
        (valid_pairs_of w (map labelled_bytes pairs.items)) }
{
    if !are_runtime_labels(&pairs) {
        return Err(Stop::Refused(Refusal::BadLabel));
    }
    let valid = valid_pairs(alloc, outline, pairs)?;
    Ok(valid)
}

/// The number of runtime roots.
pub fn count_of(roots: &BTreeSet<(String, StorePath)>) -> usize
    ensures count { result ≡ finite.len (seen_set pair_cmp labelled_bytes roots.now.keys) }
    ensures ordered { IsStrictlySortedBy (λ a b. pair_cmp (labelled_bytes a) (labelled_bytes b)) roots.now.keys }
{
    roots.len()
}

/// Replaces the runtime roots by the pairs whose target is valid. The answer is how many these pairs are.
pub fn replace_runtime<S: Alter>(
    alloc: Global,
    tables: &mut Tables<S>,
    pairs: Vec<(String, StorePath)>,
) -> Result<Answer, Stop>
    ensures { (s : Settings) (c : Caller)
        → IsMet S.Store s c (asked.replace_runtime (map labelled_bytes pairs.items)) result tables.old tables.new }
{
    let valid = prepare_runtime(alloc, tables.outline(), pairs)?;
    let count = count_of(&valid);
    answered(tables.replace_runtime(valid), Answer::RuntimeCount(count))
}
