//! Objects to add, and their summaries.

ghost use Rattle.std.specs.Prelude.{◌≡◌, IfOk, length};
ghost use Rattle.sha2.specs.Sha256.{sha256};
ghost use Rattle.paths.specs.Root.{bytes_cmp, set_of};
ghost use Rattle.intake.specs.Recorded.{outputs_view};

use crate::references::in_order;
use paths::{Ca, StorePath};
use std::alloc::{AllocError, Global};
use std::collections::BTreeMap;
use streams::Pieces;
use tables_outline::{Details, Outputs, Summary};

/// An object to add: its path, its archive, and the summary of its other facts.
#[derive(Drop)]
pub struct Added {
    /// The path.
    pub path: StorePath,
    /// The archive.
    pub nar: Pieces,
    /// The other facts of the object.
    pub object: Summary,
    ghost size: { object.size ≡ length nar },
    ghost hash: { object.hash ≡ sha256 nar },
}

/// What is recorded of an object in addition to its archive.
#[derive(Drop)]
pub(crate) struct Recorded {
    pub(crate) refs: Vec<StorePath>,
    pub(crate) deriver: Option<StorePath>,
    pub(crate) ca: Option<Ca>,
    pub(crate) outputs: BTreeMap<String, StorePath>,
}

/// The summary of an object whose archive has this size and this SHA-256.
pub(crate) fn summary(
    alloc: Global,
    size: usize,
    hash: [u8; 32],
    recorded: Recorded,
) -> Result<Summary, AllocError>
    ensures { IfOk result
        (λ o. o ≡ record {
          size = size;
          hash = hash;
          references = set_of bytes_cmp recorded.refs.items;
          deriver = recorded.deriver;
          ca = recorded.ca;
          outputs =
              outputs_view recorded.outputs.entries;
        }) }
{
    let Recorded {
        refs,
        deriver,
        ca,
        outputs,
    } = recorded;
    let outputs = Outputs::of_map(alloc, outputs)?;
    let details = Details {
        deriver,
        ca,
        outputs,
    };
    let object = Summary::new(alloc, size, hash, in_order(refs), details)?;
    Ok(object)
}
