//! The bytes of an input, held whole.
ghost use Rattle.std.specs.Prelude.{◌≡◌, [], IfOk, IfSome, IsErrOf, take};
ghost use Rattle.streams.specs.Reads.{ConsumesAtMost, TakesFewer, TakesSome};

use crate::error::ReadError;
use crate::receive::receive_at_most;
use crate::sink::Sink;
use std::alloc::{AllocError, Global};
use std::io::Read;
use std::marker::Model;

/// The bytes that came from an input, of which no more than some number will come. Contracts see the bytes.
#[derive(Drop)]
pub struct Held {
    bytes: Vec<u8>,
    most: usize,
}

impl Model for Held {
    ghost use Rattle.std.specs.Prelude.{List, ℕ};

    ghost Value = { List ℕ };

    ghost view = { λ held. held.bytes.items };
}

impl Held {
    /// No bytes yet. Allocates no memory.
    pub fn new(alloc: Global, most: usize) -> Held
        ensures { result ≡ [] }
    {
        Held {
            bytes: Vec::new(alloc),
            most,
        }
    }

    /// What has come.
    pub fn bytes(&self) -> &[u8]
        ensures { result.now ≡ self.now }
    {
        &self.bytes
    }

    /// The bytes that have come, owned.
    pub fn into_bytes(self) -> Vec<u8>
        ensures { result.items ≡ self }
    {
        self.bytes
    }
}

impl Sink for Held {
    ghost received = { λ held. held };

    /// The buffer grows by doubling, and never beyond what may come.
    fn take(&mut self, piece: &[u8]) -> Result<(), AllocError> {
        let held = self.bytes.len();
        if self.bytes.capacity() - held < piece.len() {
            let growth = held.min(self.most.saturating_sub(held));
            self.bytes.reserve_exact(growth.max(piece.len()))?;
        }
        self.bytes.extend_from_slice(piece)
    }
}

/// The bytes of an input, of which no more than `most` are read.
///
/// # Errors
///
/// `Input` if the reader failed before these were read, whatever the kind of its error; `Memory` if memory was refused
/// for bytes that were read.
pub fn read_at_most<R: Read>(
    alloc: Global,
    input: &mut R,
    most: usize,
) -> Result<Vec<u8>, ReadError>
    ensures bytes { IfOk result (λ bytes. IfSome (R.remaining input.old) (λ all. bytes.items ≡ take most all)) }
    ensures within { ConsumesAtMost most (R.remaining input.old) (R.remaining input.new) }
    ensures input { IsErrOf result ReadError.Input → TakesFewer most (R.remaining input.old) (R.remaining input.new) }
    ensures memory { IsErrOf result ReadError.Memory → TakesSome most (R.remaining input.old) (R.remaining input.new) }
{
    let mut held = Held::new(alloc, most);
    receive_at_most(input, most, &mut held)?;
    Ok(held.into_bytes())
}
