//! Tests of an imported object.

ghost use Rattle.std.specs.Prelude.{◌≡◌, ◌||◌, Some, None, IfOk, IsTrue, not, is_none};
ghost use Rattle.sha2.specs.Sha256.{sha256};
ghost use Rattle.paths.specs.StorePath.{is_base_name};
ghost use Rattle.paths.specs.ContentAddress.{verifies};
ghost use Rattle.live.specs.Graph.{holds as is_held, same};
ghost use Rattle.model.specs.World.{Path as PathOf};
ghost use Rattle.model.specs.Adds.{added_import};
ghost use Rattle.model.specs.Tests as tests;
ghost use Rattle.model.specs.Tests.{unless};
ghost use Rattle.store_types.specs.Tested.{Passes, Tested};
ghost use Rattle.intake.specs.Described.{DescribesBytes};
ghost use Rattle.store_adds.specs.Delivered.{delivered_view};
ghost use Rattle.store_types.specs.View.{import_view};

use crate::references::are_others;
use intake::Arrived;
use paths::{Ca, StoreDir, StorePath, VerifyError};
use std::alloc::{AllocError, Global};
use store_types::{Imported, Refusal, Stop};

fn is_same(a: &[u8], b: &[u8]) -> bool
    ensures { result ≡ same a.now b.now }
{
    a == b
}

/// An imported object, with its path, whose archive has arrived.
#[derive(Drop)]
pub(crate) struct Delivered {
    pub(crate) path: StorePath,
    pub(crate) nar_hash: [u8; 32],
    pub(crate) refs: Vec<StorePath>,
    pub(crate) deriver: Option<StorePath>,
    pub(crate) ca: Option<Ca>,
    pub(crate) nar: Arrived,
}

/// The imported object with its whole archive. The call fails if memory ran out while the archive arrived.
pub(crate) fn at_end(import: Imported) -> Result<Delivered, AllocError>
    ensures same { IfOk result (λ d. delivered_view d ≡ import_view import) }
    ensures reported { IfOk result (λ d. DescribesBytes d.nar) }
    ensures spent { import.nar ≡ None → IfOk result (λ d. ⊥) }
{
    let Imported {
        path,
        nar_hash,
        refs,
        deriver,
        ca,
        nar,
    } = import;
    let nar = nar.finish()?;
    Ok(Delivered {
        path,
        nar_hash,
        refs,
        deriver,
        ca,
        nar,
    })
}

impl Delivered {
    /// The path and the deriver of the object are base names.
    pub(crate) fn has_base_names(&self)
        ensures path { IsTrue (is_base_name (delivered_view self.now).path) }
        ensures deriver { (d : PathOf) → (delivered_view self.now).deriver ≡ Some d → IsTrue (is_base_name d) }
    {
        let _path = self.path.as_str();
        if let Some(deriver) = &self.deriver {
            let _deriver = deriver.as_str();
        }
    }

    /// Tests that the archive has the given digest.
    pub(crate) fn has_digest(&self) -> Result<(), Refusal>
        requires { self.now.nar.nar_hash ≡ sha256 self.now.nar.pieces }
        ensures { Tested result
            (unless (same (sha256 (delivered_view self.now).nar) (delivered_view self.now).nar_hash)
            Refusal.NarHashMismatch) }
    {
        if !is_same(&self.nar.nar_hash, &self.nar_hash) {
            return Err(Refusal::NarHashMismatch);
        }
        Ok(())
    }

    /// Tests that an object with a content address doesn't refer to itself.
    pub(crate) fn refers_to_others(&self) -> Result<(), Refusal>
        ensures { Tested result (unless (is_none (delivered_view self.now).ca
            || not (is_held (delivered_view self.now).refs (delivered_view self.now).path)) Refusal.SelfReference) }
    {
        if self.ca.is_none() {
            return Ok(());
        }
        are_others(&self.refs, &self.path)
    }

    /// Tests that the content address of the object, if it has one, verifies.
    pub(crate) fn is_verified(&self, alloc: Global, dir: &StoreDir) -> Result<(), Stop>
        requires { DescribesBytes self.now.nar }
        ensures { Passes result (unless (tests.is_verified dir.now (delivered_view self.now).path
            (added_import dir.now (delivered_view self.now)).object (delivered_view self.now).ca) Refusal.CaMismatch) }
    {
        let Some(ca) = &self.ca else {
            return Ok(());
        };
        if !self.fits(alloc, dir, ca)? {
            return Err(Stop::Refused(Refusal::CaMismatch));
        }
        Ok(())
    }

    /// Whether `ca` is a content address of the object.
    fn fits(&self, alloc: Global, dir: &StoreDir, ca: &Ca) -> Result<bool, AllocError>
        ensures { DescribesBytes self.now.nar → IfOk result
            (λ fits. fits
            ≡ verifies ca.now dir.now (delivered_view self.now).path (delivered_view self.now).refs
            (delivered_view self.now).nar) }
    {
        let facts = self.nar.facts_for(ca.method());
        match ca.verify_facts(alloc, dir, &self.path, &self.refs, &facts) {
            Ok(()) => Ok(true),
            Err(VerifyError::CaMismatch) => Ok(false),
            Err(VerifyError::Memory) => Err(AllocError),
        }
    }
}
