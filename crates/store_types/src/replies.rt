//! The replies of a store.

ghost use Rattle.std.specs.Prelude.{◌≡◌};
ghost use Rattle.store_types.specs.Stops.{derivation_stop};
ghost use Rattle.store_types.specs.declared.replies.Stop.TheVariants.{Failed as failed, Refused as refused};
ghost use Rattle.tables_sql.specs.declared.failure.Failed.TheVariants.{Memory as memory};

use drv::DrvError;
use model::Refusal;
use paths::{Ca, StorePath};
use policy::Rule;
use std::alloc::AllocError;
use streams::Pieces;
use tables_sql::failure::Failed;

/// The record of an object.
#[derive(Drop)]
pub struct Info {
    /// The path of the object.
    pub path: StorePath,
    /// The SHA-256 digest of its archive.
    pub hash: [u8; 32],
    /// The number of bytes of its archive.
    pub size: usize,
    /// The references of the object, in order.
    pub references: Vec<StorePath>,
    /// The deriver of the object, if it is recorded.
    pub deriver: Option<StorePath>,
    /// The content address of the object, if it is recorded.
    pub ca: Option<Ca>,
}

/// A number of paths, and the sum of the bytes of their archives.
#[derive(Clone, Copy, PartialEq, Eq, Debug)]
pub struct Usage {
    /// The number of paths.
    pub paths: usize,
    /// The sum of the bytes.
    pub bytes: u128,
}

/// The answer to a request that is done.
#[derive(Drop)]
pub enum Answer {
    /// The path of what is added.
    Path(StorePath),
    /// The record of an object.
    Record(Info),
    /// The bytes of an archive.
    Archive(Pieces),
    /// The listing of an archive.
    Listing(String),
    /// Paths, in order.
    Paths(Vec<StorePath>),
    /// Labels and targets of roots, in the order of roots.
    Roots(Vec<(String, StorePath)>),
    /// Set, added, dropped, deleted or kept for a session.
    Changed,
    /// The number of the current generation.
    Generation(u32),
    /// The number of runtime roots.
    RuntimeCount(usize),
    /// The number of temporary roots that a session had.
    TemporaryCount(usize),
    /// The paths that were deleted, and the sum of the bytes of their archives.
    Freed(Vec<StorePath>, u128),
    /// The numbers of the live, the dead and all paths.
    Usage(Usage, Usage, Usage),
}

/// The reply of a store to a request.
#[derive(Drop)]
pub enum Reply {
    /// The request is done.
    Done(Answer),
    /// The first rule that forbids the request; for a live path the label and the target of its first root, as the
    /// caller sees them.
    Denied(Rule, Option<(String, StorePath)>),
    /// The first test that fails.
    Refused(Refusal),
    /// The call failed, and nothing changed.
    Failed(Failed),
}

/// Why a request that no rule forbids isn't done.
#[derive(Clone, Copy)]
pub enum Stop {
    /// The first test that fails.
    Refused(Refusal),
    /// The call failed.
    Failed(Failed),
}

impl From<AllocError> for Stop {
    ghost from_gives = { λ _ e. e ≡ failed memory };

    fn from(_e: AllocError) -> Stop {
        Stop::Failed(Failed::Memory)
    }
}

impl From<Refusal> for Stop {
    ghost from_gives = { λ r e. e ≡ refused r };

    fn from(refusal: Refusal) -> Stop {
        Stop::Refused(refusal)
    }
}

impl From<Failed> for Stop {
    ghost from_gives = { λ f e. e ≡ failed f };

    fn from(failure: Failed) -> Stop {
        Stop::Failed(failure)
    }
}

impl From<DrvError> for Stop {
    ghost from_gives = { λ fault e. e ≡ derivation_stop fault };

    fn from(fault: DrvError) -> Stop {
        match Refusal::of_derivation(fault) {
            Some(refusal) => Stop::Refused(refusal),
            None => Stop::Failed(Failed::Memory),
        }
    }
}
