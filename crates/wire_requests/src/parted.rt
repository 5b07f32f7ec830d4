//! A body whose payload is an archive, as it arrives.
ghost use Rattle.std.specs.Prelude.{◌≡◌, ◌++◌, ℕ, List, [], Ok, OnOk, Some, true};
ghost use Rattle.wire_bodies.specs.Prefix.{prefix_of, rest_of};
ghost use Rattle.intake.specs.Arrival.{bytes_in};
ghost use Rattle.wire_requests.specs.Kept.{IsParted, bytes_of};

use intake::Intake;
use std::alloc::{AllocError, Global};
use std::marker::Model;
use std::str;
use streams::Sink;
use wire_bodies::Prefix;

/// The lines of a body, and the archive after them, which is checked and hashed as it arrives. Contracts see both.
#[derive(Drop)]
pub struct Parted {
    prefix: Prefix,
    archive: Intake,
    has_begun: bool,
}

impl Model for Parted {
    ghost use Rattle.std.specs.Prelude.{◌≡◌, ◌++◌, List, ℕ, Option};
    ghost use Rattle.wire_bodies.specs.Prefix.{prefix_of};
    ghost use Rattle.intake.specs.Arrival.{bytes_in};

    ghost Value = { List ℕ × Option (List ℕ) };

    ghost view = { λ parted. (parted.prefix, parted.archive) };

    ghost invariant = { λ parted. prefix_of (parted.prefix ++ bytes_in parted.archive) ≡ parted.prefix };
}

/// Whether the lines name the content address of a text, which needs the digest of the contents. No result depends on
/// it: contents that aren't hashed as they arrive are hashed when the address is tested.
fn names_text_address(prefix: &[u8]) -> bool {
    match str::from_utf8(prefix) {
        Ok(text) => text.starts_with("ca: text:") || text.contains("\nca: text:"),
        Err(_) => false,
    }
}

/// Prepares the intake before the first bytes of the archive: contents that the lines need are hashed as they arrive.
/// Returns whether the archive has begun.
fn begin(has_begun: bool, prefix: &[u8], rest: &[u8], archive: &mut Intake) -> bool
    ensures { archive.new ≡ archive.old }
{
    if has_begun || rest.is_empty() {
        return has_begun;
    }
    if names_text_address(prefix) {
        archive.hash_contents();
    }
    true
}

impl Parted {
    /// An empty body. Allocates no memory.
    pub fn new(alloc: Global) -> Parted
        ensures { result ≡ ([], Some []) }
    {
        Parted {
            prefix: Prefix::new(alloc),
            archive: Intake::new(alloc),
            has_begun: false,
        }
    }

    /// Takes the next piece. Returns whether all that has come is kept: if memory is refused for the archive, now or
    /// before, the archive is spent.
    ///
    /// # Errors
    ///
    /// Memory was refused for the lines.
    pub(crate) fn push(&mut self, piece: &[u8]) -> Result<bool, AllocError>
        ensures taken { OnOk result ((all : List ℕ) → IsParted self.old.0 self.old.1 all
            → IsParted self.new.0 self.new.1 (all ++ piece.now)) }
        ensures whole { result ≡ Ok true → bytes_of self.new ≡ bytes_of self.old ++ piece.now }
    {
        let rest = self.prefix.take(piece)?;
        if rest.is_empty() {
            return Ok(true);
        }
        self.has_begun = begin(self.has_begun, self.prefix.bytes(), rest, &mut self.archive);
        Ok(self.archive.push(rest).is_ok())
    }

    /// The lines up to and with the first empty one.
    pub(crate) fn lines(&self) -> &[u8]
        ensures now { result.now ≡ self.now.0 }
        ensures prefix { prefix_of (bytes_of self.now) ≡ self.now.0 }
        ensures rest { rest_of (bytes_of self.now) ≡ bytes_in self.now.1 }
    {
        self.prefix.bytes()
    }

    /// The archive, without a copy.
    pub(crate) fn into_archive(self) -> Intake
        ensures { result ≡ self.1 }
    {
        self.archive
    }
}

/// What is received is what has come without what memory was refused for. A piece is refused once the archive is spent.
impl Sink for Parted {
    ghost received = { bytes_of };

    fn take(&mut self, piece: &[u8]) -> Result<(), AllocError> {
        if self.push(piece)? {
            Ok(())
        } else {
            Err(AllocError)
        }
    }
}
