//! The body of a message, as it arrives.
ghost use Rattle.std.specs.Prelude.{◌≡◌, ◌++◌, ℕ, List, [], OnOk};
ghost use Rattle.wire_requests.specs.Kept as spec;
ghost use Rattle.wire_requests.specs.Kept.{Represents, form_in};

use crate::blank::Blank;
use crate::held::Held;
use crate::kind::{Form, Kind, form_of};
use crate::parted::Parted;
use std::alloc::{AllocError, Global};
use std::marker::Model;

/// What is kept of a body.
#[derive(Drop)]
pub(crate) enum Storage {
    /// Whether it says nothing.
    Bare(Blank),
    /// All of it, in one buffer.
    Whole(Held),
    /// The lines in a buffer, the archive in an intake.
    Parted(Parted),
}

/// The body of a message, which arrives in pieces of any size. As much of it is kept as its request needs. Contracts
/// see what is kept, and which bodies it stands for.
#[derive(Drop)]
pub struct Body {
    kept: Storage,
}

impl Model for Body {
    ghost use Rattle.wire_requests.specs.declared.body.Storage.{Storage};

    ghost Value = { Storage };

    ghost view = { λ body. body.kept };
}

impl Body {
    /// The empty body of a request of a kind, of `size` bytes in the end. Allocates no memory yet.
    pub fn new(alloc: Global, kind: Kind, size: usize) -> Body
        ensures form { form_in result ≡ spec.form_of kind }
        ensures empty { Represents result [] }
    {
        let kept = match form_of(kind) {
            Form::Bare => Storage::Bare(Blank::Nothing),
            Form::Whole => Storage::Whole(Held {
                bytes: Vec::new(alloc),
                size,
            }),
            Form::Parted => Storage::Parted(Parted::new(alloc)),
        };
        Body { kept }
    }

    /// Takes the next piece. If memory is refused for an archive, the archive is spent, and the rest of it is dropped.
    ///
    /// # Errors
    ///
    /// Memory was refused for anything else.
    pub fn push(&mut self, piece: &[u8]) -> Result<(), AllocError>
        ensures form { form_in self.new ≡ form_in self.old }
        ensures taken { OnOk result ((all : List ℕ) → Represents self.old all
            → Represents self.new (all ++ piece.now)) }
    {
        match &mut self.kept {
            Storage::Bare(came) => *came = came.with(piece),
            Storage::Whole(held) => held.push(piece)?,
            Storage::Parted(parted) => {
                parted.push(piece)?;
            }
        }
        Ok(())
    }

    /// What is kept.
    pub(crate) fn into_kept(self) -> Storage
        ensures { result ≡ self }
    {
        self.kept
    }
}
