//! The lines before the payload of a body that comes in pieces.
ghost use Rattle.std.specs.Prelude.{◌≡◌, ◌++◌, ◌≤◌, [], IfOk, OnErr, length, take, drop};
ghost use Rattle.wire_bodies.specs.Prefix.{next, place_after, prefix_from, rest_from, prefix_of, rest_of};
ghost use Rattle.wire_bodies.specs.declared.prefix.Place.TheVariants.{BeginsLine, AfterPrefix};

use std::alloc::{AllocError, Global};
use std::marker::Model;

/// Where in a body the next byte is.
#[derive(Clone, Copy)]
enum Place {
    /// At the beginning of a line.
    BeginsLine,
    /// In a line that has begun.
    WithinLine,
    /// After the empty line, in the payload.
    AfterPrefix,
}

/// The prefix of a body that comes in pieces, however they are cut: its lines up to and with the first empty one. What
/// follows is the payload. Contracts see the bytes of the prefix that have come.
#[derive(Drop)]
pub struct Prefix {
    bytes: Vec<u8>,
    place: Place,
}

impl Model for Prefix {
    ghost use Rattle.std.specs.Prelude.{List, ℕ};
    ghost use Rattle.wire_bodies.specs.Prefix.{IsPrefix};

    ghost Value = { List ℕ };

    ghost view = { λ prefix. prefix.bytes.items };

    ghost invariant = { λ prefix. IsPrefix prefix.bytes.items prefix.place };
}

/// The place after one more byte.
fn place_after(place: Place, byte: u8) -> Place
    ensures { result ≡ next place byte }
{
    match place {
        Place::BeginsLine => {
            if byte == b'\n' {
                Place::AfterPrefix
            } else {
                Place::WithinLine
            }
        }
        Place::WithinLine => {
            if byte == b'\n' {
                Place::BeginsLine
            } else {
                Place::WithinLine
            }
        }
        Place::AfterPrefix => Place::AfterPrefix,
    }
}

/// How many bytes of a piece, which begins at this place, belong to the prefix, and the place after them.
fn prefix_in(place: Place, piece: &[u8]) -> (usize, Place)
    ensures within { result.0 ≤ length piece.now }
    ensures prefix { take result.0 piece.now ≡ prefix_from place piece.now }
    ensures rest { drop result.0 piece.now ≡ rest_from place piece.now }
    ensures next_place { result.1 ≡ place_after place piece.now }
{
    let mut next_place = place;
    for (i, byte) in piece.iter().enumerate() {
        if let Place::AfterPrefix = next_place {
            return (i, next_place);
        }
        next_place = place_after(next_place, *byte);
    }
    (piece.len(), next_place)
}

/// The lines of a body up to and with the first empty one, borrowed. No byte after them is examined.
pub fn lines_of(body: &[u8]) -> &[u8]
    ensures { result.now ≡ prefix_of body.now }
{
    let (count, _) = prefix_in(Place::BeginsLine, body);
    &body[..count]
}

impl Prefix {
    /// An empty prefix. Allocates no memory.
    pub fn new(alloc: Global) -> Prefix
        ensures { result ≡ [] }
    {
        Prefix {
            bytes: Vec::new(alloc),
            place: Place::BeginsLine,
        }
    }

    /// Appends the part of the next piece that belongs to the prefix, and returns the rest of the piece, which is
    /// payload and not examined.
    ///
    /// # Errors
    ///
    /// Memory was refused; none is needed after the empty line. The prefix is then as before.
    pub fn take<'a>(&mut self, piece: &'a [u8]) -> Result<&'a [u8], AllocError>
        ensures prefix { IfOk result (λ rest. self.new ≡ prefix_of (self.old ++ piece.now)) }
        ensures rest { IfOk result (λ rest. rest.now ≡ rest_of (self.old ++ piece.now)) }
        ensures refused { OnErr result (self.new ≡ self.old) }
        ensures whole { OnErr result (place_after BeginsLine self.old ≡ AfterPrefix → ⊥) }
    {
        if let Place::AfterPrefix = self.place {
            return Ok(piece);
        }
        let (count, place) = prefix_in(self.place, piece);
        self.bytes.extend_from_slice(&piece[..count])?;
        self.place = place;
        Ok(&piece[count..])
    }

    /// The bytes of the prefix that have come.
    pub fn bytes(&self) -> &[u8]
        ensures now { result.now ≡ self.now }
        ensures prefix { prefix_of self.now ≡ self.now }
    {
        &self.bytes
    }
}
