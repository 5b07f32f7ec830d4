//! How far a checker has come: whole strings, and one that has begun.

ghost use Rattle.std.specs.Prelude.{◌≡◌, ◌≢◌, ◌++◌, ◌+◌, ◌-◌, ◌*◌, ◌<◌, ◌≤◌, ◌↔◌, ℕ, List, [], OnOk, IfOk, IfErr};
ghost use Rattle.std.specs.Prelude.{IfSome, IsTrue, length};
ghost use Rattle.nar.specs.declared.error.NarError.TheVariants.{Truncated};
ghost use Rattle.nar.specs.Tree.{IsBytes};
ghost use Rattle.nar.specs.Fault.{IsFault};
ghost use Rattle.nar.specs.Answer.{IfFault};
ghost use Rattle.nar.specs.Feeding.{Fed, Waits, EndsIn, Counts, IsCounting, IsReachedBy};
ghost use Rattle.nar.specs.NestView.{symbols_of, counts_at};

use crate::count::Count;
use crate::error::NarError;
use crate::nest::Nest;
use crate::string::{Place, are_zeros, length_at, string_of};
use std::alloc::Global;
use std::mem;
use streams::MAX_ARCHIVE;

/// Lets `Truncated` pass, since more bytes may come, and no other fault.
fn needs_more(e: NarError) -> Result<(), NarError>
    ensures ok { OnOk result (e ≡ Truncated) }
    ensures err { IfErr result (λ d. (d ≡ e) × (d ≢ Truncated)) }
{
    match e {
        NarError::Truncated => Ok(()),
        _ => Err(e),
    }
}

/// Takes the strings that are whole, and returns the place after them.
fn strings_of<'a>(
    alloc: Global,
    nest: &mut Nest,
    bytes: &'a [u8],
    room: usize,
) -> Result<Place<'a>, NarError>
    ensures ok { IfOk result (λ x. (all : List ℕ) → Fed (symbols_of nest.old) room bytes.now all
        → Fed (symbols_of nest.new) x.room x.rest.now all × Waits (symbols_of nest.new) x.room x.rest.now) }
    ensures suffix { IfOk result (λ x. EndsIn bytes.now x.rest.now) }
    ensures err { IfErr result
        (λ e. IfFault e
        (λ f. (all : List ℕ) → Fed (symbols_of nest.old) room bytes.now all → IsFault all f × (f ≢ Truncated))) }
{
    let mut at = Place { rest: bytes, room };
    'strings: loop {
        if nest.is_done() {
            if !at.rest.is_empty() {
                return Err(NarError::Trailing);
            }
            return Ok(at);
        }
        match string_of(at) {
            Ok((text, after)) => {
                nest.step(alloc, text)?;
                at = after;
            }
            Err(e) => {
                needs_more(e)?;
                return Ok(at);
            }
        }
    }
}

/// The count of the string that has begun, if its bytes are counted and not stored.
fn count_of(nest: &Nest, place: Place<'_>) -> Option<Count>
    ensures counts { IfSome result (λ k. Counts k place.entry.room place.entry.rest.now) }
    ensures early { IfSome result (λ k. length place.entry.rest.now < k.size) }
    ensures counted { IfSome result (λ k. IsTrue (counts_at nest.now (k.text - 8))) }
{
    let rest = place.rest;
    if rest.len() < 8 {
        return None;
    }
    let len = length_at(rest);
    let size = 8 + 8 * ((u128::from(len) + 7) / 8);
    if (place.room as u128) < size {
        return None;
    }
    let len = len as usize;
    let size = size as usize;
    if size <= rest.len() {
        return None;
    }
    if !nest.is_counted(len) {
        return None;
    }
    let text = 8 + len;
    let is_clean = are_zeros(&rest[text.min(rest.len())..]);
    Some(Count {
        text,
        size,
        got: rest.len(),
        is_clean,
    })
}

/// How many bytes the string that has begun still needs: those of its length, and then the others. One at least.
fn wanted(held: &[u8]) -> usize
    ensures { 0 < result }
{
    if held.len() < 8 {
        return 8 - held.len();
    }
    let size = 8 + 8 * ((u128::from(length_at(held)) + 7) / 8);
    size.saturating_sub(held.len() as u128)
        .clamp(1, MAX_ARCHIVE as u128) as usize
}

/// The open nodes, how many bytes the archive may still take, and the string that has begun: its bytes, or
/// their count.
#[derive(Drop)]
pub struct Progress {
    alloc: Global,
    nest: Nest,
    room: usize,
    held: Vec<u8>,
    count: Option<Count>,
}

impl Progress {
    ghost use Rattle.nar.specs.Progress.{HasRead, HasReadBefore, turns};

    pub fn new(alloc: Global) -> Progress
        ensures { HasRead result [] }
    {
        Progress {
            alloc,
            nest: Nest::new(alloc),
            room: MAX_ARCHIVE,
            held: Vec::new(alloc),
            count: None,
        }
    }

    /// Whether the archive is whole.
    pub fn is_done(&self) -> bool
        ensures { IsTrue result ↔ (symbols_of self.now.nest ≡ []) }
    {
        self.nest.is_done()
    }

    /// Takes the whole strings at the beginning, and returns the bytes to store of the one that has begun.
    fn look<'a>(&mut self, bytes: &'a [u8]) -> Result<&'a [u8], NarError>
        ensures ok { IfOk result (λ rest. (all : List ℕ) → Fed (symbols_of self.old.nest) self.old.room bytes.now all
            → IsReachedBy self.new.count self.new.nest self.new.room rest.now all) }
        ensures suffix { IfOk result (λ rest. EndsIn bytes.now rest.now) }
        ensures held { self.new.held ≡ self.old.held }
        ensures err { IfErr result
            (λ e. IfFault e
            (λ f. (all : List ℕ) → Fed (symbols_of self.old.nest) self.old.room bytes.now all
            → IsFault all f × (f ≢ Truncated))) }
    {
        let place = strings_of(self.alloc, &mut self.nest, bytes, self.room)?;
        self.room = place.room;
        match count_of(&self.nest, place) {
            None => {
                self.count = None;
                Ok(place.rest)
            }
            Some(count) => {
                self.count = Some(count);
                Ok(&bytes[bytes.len()..])
            }
        }
    }

    /// Takes strings from a piece, when no string has begun.
    fn read_on(&mut self, piece: &[u8]) -> Result<(), NarError>
        requires { self.old.held.items ≡ [] }
        ensures ok { OnOk result ((all : List ℕ) → Fed (symbols_of self.old.nest) self.old.room piece.now all
            → HasRead self.new all) }
        ensures err { IfErr result
            (λ e. IfFault e
            (λ f. (all : List ℕ) → Fed (symbols_of self.old.nest) self.old.room piece.now all
            → IsFault all f × (f ≢ Truncated))) }
    {
        let rest = self.look(piece)?;
        self.held.extend_from_slice(rest)?;
        Ok(())
    }

    /// Takes further bytes of the string whose bytes are stored.
    fn fill(&mut self, prefix: &[u8]) -> Result<(), NarError>
        ensures ok { OnOk result ((all : List ℕ)
            → Fed (symbols_of self.old.nest) self.old.room (self.old.held.items ++ prefix.now) all
            → HasRead self.new all) }
        ensures err { IfErr result
            (λ e. IfFault e
            (λ f. (all : List ℕ) → Fed (symbols_of self.old.nest) self.old.room (self.old.held.items ++ prefix.now) all
            → IsFault all f × (f ≢ Truncated))) }
    {
        let mut held = mem::replace(&mut self.held, Vec::new(self.alloc));
        held.extend_from_slice(prefix)?;
        let rest = self.look(&held)?;
        if rest.is_empty() {
            // Its buffer is used for the next string.
            held.clear();
            self.held = held;
        } else if rest.len() < held.len() {
            self.held.extend_from_slice(rest)?;
        } else {
            self.held = held;
        }
        Ok(())
    }

    /// Counts bytes of the string whose bytes are counted, and takes it at its end.
    fn count_on(&mut self, count: Count, prefix: &[u8]) -> Result<(), NarError>
        requires { length prefix.now ≤ count.size - count.got }
        ensures ok { OnOk result ((all : List ℕ) → IsBytes (all ++ prefix.now)
            → (self.old.held.items ≡ []) × IsCounting count self.old.nest self.old.room all
            → HasRead self.new (all ++ prefix.now)) }
        ensures done { OnOk result (count.size - count.got ≤ length prefix.now → self.new.count ≡ None) }
        ensures err { IfErr result
            (λ e. IfFault e
            (λ f. (all : List ℕ) → IsBytes (all ++ prefix.now) → IsCounting count self.old.nest self.old.room all
            → IsFault (all ++ prefix.now) f × (f ≢ Truncated))) }
    {
        let mut count = count;
        count.take(prefix);
        if count.left() > 0 {
            self.count = Some(count);
            return Ok(());
        }
        self.count = None;
        if !count.is_clean {
            return Err(NarError::BadPadding);
        }
        self.nest.skip(count.text.saturating_sub(8))?;
        self.room = self.room.saturating_sub(count.size);
        Ok(())
    }

    /// Takes bytes from the beginning of a piece, one at least, and returns the rest of it.
    pub fn step<'a>(&mut self, piece: &'a [u8]) -> Result<&'a [u8], NarError>
        requires { 0 < length piece.now }
        ensures ok { IfOk result
            (λ rest. (all : List ℕ) → IsBytes all → HasReadBefore self.old piece.now all
            → HasReadBefore self.new rest.now all) }
        ensures nearer { IfOk result
            (λ rest. 2 * length rest.now + turns self.new < 2 * length piece.now + turns self.old) }
        ensures err { IfErr result
            (λ e. IfFault e
            (λ f. (all : List ℕ) → IsBytes all → HasReadBefore self.old piece.now all
            → IsFault all f × (f ≢ Truncated))) }
    {
        match self.count {
            Some(count) => {
                let (prefix, rest) = piece.split_at(count.left().min(piece.len()));
                self.count_on(count, prefix)?;
                Ok(rest)
            }
            None => {
                if self.held.is_empty() {
                    self.read_on(piece)?;
                    return Ok(&piece[piece.len()..]);
                }
                let (prefix, rest) = piece.split_at(wanted(&self.held).min(piece.len()));
                self.fill(prefix)?;
                Ok(rest)
            }
        }
    }
}
