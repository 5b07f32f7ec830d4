//! Bytes in pieces, to which bytes are appended. They never need one large buffer.

ghost use Rattle.std.specs.Prelude.{◌≡◌, ◌+◌, ◌*◌, ◌<◌, ◌≤◌, ◌^◌, List, ℕ, [], ◌∷◌, ◌++◌, length, map, take, OnOk};
ghost use Rattle.std.specs.Prelude.{OnErr, IfOk};
ghost use Rattle.std.specs.List.{concat};
ghost use Rattle.streams.specs.Cut.{piece_of, count_of, AreCut};

use crate::limits::PIECE_SIZE;
use std::alloc::{AllocError, AllocFailed, Global};
use std::marker::Model;
use std::mem;

/// Bytes in pieces of 65,536, of which the last has 1 to 65,536; no bytes have no piece. So growing asks for no more
/// than two pieces at once, and moves no byte of a whole one. Contracts see the bytes.
#[derive(Drop)]
pub struct Pieces {
    alloc: Global,
    whole: Vec<Vec<u8>>,
    last: Vec<u8>,
}

impl Model for Pieces {
    ghost Value = { List ℕ };

    ghost view = { λ p. concat (map (λ v. v.items) p.whole.items) ++ p.last.items };

    ghost invariant = { λ p. AreCut (map (λ v. v.items) p.whole.items) p.last.items };
}

/// Puts the next piece after the last one, which is full and becomes one of the whole ones.
fn push_piece(whole: &mut Vec<Vec<u8>>, last: &mut Vec<u8>, next: Vec<u8>) -> Result<(), AllocError>
    requires cut { AreCut (map (λ v. v.items) whole.old.items) last.old.items }
    requires full { 65536 ≤ length last.old.items }
    requires fits { length next.items ≤ 65536 }
    requires small { length (concat (map (λ v. v.items) whole.old.items) ++ last.old.items) + length next.items
        < 2 ^ 64 }
    ensures cut { AreCut (map (λ v. v.items) whole.new.items) last.new.items }
    ensures ok { OnOk result (concat (map (λ v. v.items) whole.new.items) ++ last.new.items
        ≡ (concat (map (λ v. v.items) whole.old.items) ++ last.old.items) ++ next.items) }
    ensures last { OnOk result (last.new.items ≡ next.items) }
    ensures err { OnErr result (concat (map (λ v. v.items) whole.new.items) ++ last.new.items
        ≡ concat (map (λ v. v.items) whole.old.items) ++ last.old.items) }
{
    let full = mem::replace(last, next);
    match whole.push(full) {
        Ok(()) => Ok(()),
        Err(AllocFailed { value }) => {
            *last = value;
            Err(AllocError)
        }
    }
}

/// Returns how much room the last piece has. If it is full, a new one begins.
fn make_room(
    alloc: Global,
    whole: &mut Vec<Vec<u8>>,
    last: &mut Vec<u8>,
) -> Result<usize, AllocError>
    requires { AreCut (map (λ v. v.items) whole.old.items) last.old.items }
    ensures same { concat (map (λ v. v.items) whole.new.items) ++ last.new.items
        ≡ concat (map (λ v. v.items) whole.old.items) ++ last.old.items }
    ensures cut { AreCut (map (λ v. v.items) whole.new.items) last.new.items }
    ensures room { IfOk result (λ room. (0 < room) × (room + length last.new.items ≡ 65536)) }
{
    if last.len() < PIECE_SIZE {
        return Ok(PIECE_SIZE - last.len());
    }
    let next = Vec::with_capacity(alloc, PIECE_SIZE)?;
    push_piece(whole, last, next)?;
    Ok(PIECE_SIZE)
}

impl Pieces {
    /// No bytes. Allocates no memory.
    ///
    /// ```rust
    /// use streams::Pieces;
    ///
    /// let pieces = Pieces::new(alloc);
    /// assert_eq!(rt; pieces.len(), 0);
    /// assert_eq!(rt; pieces.count(), 0);
    /// ```
    pub fn new(alloc: Global) -> Pieces
        ensures { result ≡ [] }
    {
        Pieces {
            alloc,
            whole: Vec::new(alloc),
            last: Vec::new(alloc),
        }
    }

    /// How many bytes there are.
    ///
    /// ```rust
    /// use streams::Pieces;
    ///
    /// let mut pieces = Pieces::new(alloc);
    /// pieces.push(b"abc")?;
    /// pieces.push(b"de")?;
    /// assert_eq!(rt; pieces.len(), 5);
    /// ```
    pub fn len(&self) -> usize
        ensures { result ≡ length self.now }
    {
        self.whole.len() * PIECE_SIZE + self.last.len()
    }

    /// How many pieces there are.
    ///
    /// ```rust
    /// use streams::Pieces;
    ///
    /// let mut pieces = Pieces::new(alloc);
    /// pieces.push(&[0; 65_536])?;
    /// assert_eq!(rt; pieces.count(), 1);
    /// pieces.push(b"a")?;
    /// assert_eq!(rt; pieces.count(), 2);
    /// ```
    pub fn count(&self) -> usize
        ensures { result ≡ count_of self.now }
    {
        self.len().div_ceil(PIECE_SIZE)
    }

    /// The piece at a place, counted from 0.
    ///
    /// ```rust
    /// use streams::Pieces;
    ///
    /// let mut pieces = Pieces::new(alloc);
    /// pieces.push(&[0; 65_536])?;
    /// pieces.push(b"abc")?;
    /// assert_eq!(rt; pieces.piece(1), b"abc".as_slice());
    /// ```
    pub fn piece(&self, i: usize) -> &[u8]
        requires { 65536 * i < length self.now }
        ensures { result.now ≡ piece_of i self.now }
    {
        if i < self.whole.len() {
            self.whole[i].as_slice()
        } else {
            self.last.as_slice()
        }
    }

    /// The first piece; no bytes if there is none.
    ///
    /// ```rust
    /// use streams::Pieces;
    ///
    /// let mut pieces = Pieces::new(alloc);
    /// assert_eq!(rt; pieces.first(), b"".as_slice());
    /// pieces.push(b"abc")?;
    /// assert_eq!(rt; pieces.first(), b"abc".as_slice());
    /// ```
    pub fn first(&self) -> &[u8]
        ensures { result.now ≡ take 65536 self.now }
    {
        if self.len() == 0 {
            return b"";
        }
        self.piece(0)
    }

    /// Appends bytes. If memory is refused, the bytes stay as they were.
    ///
    /// ```rust
    /// use streams::Pieces;
    ///
    /// let mut pieces = Pieces::new(alloc);
    /// pieces.push(b"my")?;
    /// pieces.push(b"content")?;
    /// assert_eq!(rt; pieces.piece(0), b"mycontent".as_slice());
    /// ```
    ///
    /// # Errors
    ///
    /// Memory was refused.
    pub fn push(&mut self, bytes: &[u8]) -> Result<(), AllocError>
        ensures ok { OnOk result (self.new ≡ self.old ++ bytes.now) }
        ensures err { OnErr result (self.new ≡ self.old) }
    {
        if bytes.len() < PIECE_SIZE - self.last.len() {
            return self.last.extend_from_slice(bytes);
        }
        let before = self.len();
        if bytes.len() > usize::MAX - before {
            return Err(AllocError);
        }
        let mut rest = bytes;
        'pieces: while !rest.is_empty() {
            match self.fill(rest) {
                Ok(after) => rest = after,
                Err(e) => {
                    self.truncate(before);
                    return Err(e);
                }
            }
        }
        Ok(())
    }

    /// Appends a buffer of bytes. If the bytes fit a piece, and the last piece is full or there is none, the buffer
    /// becomes the next piece without a copy. Otherwise the bytes are copied. If memory is refused, the bytes stay as
    /// they were.
    ///
    /// ```rust
    /// use streams::Pieces;
    ///
    /// let mut pieces = Pieces::new(alloc);
    /// pieces.append(Vec::from_slice(alloc, b"mycontent")?)?;
    /// assert_eq!(rt; pieces.len(), 9);
    /// ```
    ///
    /// # Errors
    ///
    /// Memory was refused.
    pub fn append(&mut self, bytes: Vec<u8>) -> Result<(), AllocError>
        ensures ok { OnOk result (self.new ≡ self.old ++ bytes.items) }
        ensures err { OnErr result (self.new ≡ self.old) }
    {
        if bytes.len() > PIECE_SIZE || bytes.len() > usize::MAX - self.len() {
            return self.push(bytes.as_slice());
        }
        if self.last.is_empty() {
            self.last = bytes;
            return Ok(());
        }
        if self.last.len() == PIECE_SIZE {
            return push_piece(&mut self.whole, &mut self.last, bytes);
        }
        self.push(bytes.as_slice())
    }

    /// Appends as many of the bytes as the last piece has room for, and returns the rest.
    fn fill<'a>(&mut self, bytes: &'a [u8]) -> Result<&'a [u8], AllocError>
        requires some { 0 < length bytes.now }
        requires small { length self.old + length bytes.now < 2 ^ 64 }
        ensures ok { IfOk result
            (λ rest. (self.new ++ rest.now ≡ self.old ++ bytes.now) × (length rest.now < length bytes.now)) }
        ensures err { OnErr result (self.new ≡ self.old) }
    {
        let room = make_room(self.alloc, &mut self.whole, &mut self.last)?;
        let (front, rest) = bytes.split_at(bytes.len().min(room));
        self.last.extend_from_slice(front)?;
        Ok(rest)
    }

    /// Keeps the first `length` bytes.
    fn truncate(&mut self, len: usize)
        requires { len ≤ length self.old }
        ensures { self.new ≡ take len self.old }
    {
        let place = len / PIECE_SIZE;
        if self.whole.len() <= place {
            self.last.truncate(len - PIECE_SIZE * self.whole.len());
            return;
        }
        self.last = self.whole.remove(place);
        self.whole.truncate(place);
        self.last.truncate(len % PIECE_SIZE);
    }

    /// All bytes in one buffer, for readers that can't take pieces. Allocates all of their memory at once.
    ///
    /// ```rust
    /// use streams::Pieces;
    ///
    /// let mut pieces = Pieces::new(alloc);
    /// pieces.push(&[0; 65_536])?;
    /// pieces.push(b"abc")?;
    /// assert_eq!(rt; pieces.joined()?.len(), 65_539);
    /// ```
    ///
    /// # Errors
    ///
    /// Memory was refused.
    pub fn joined(&self) -> Result<Vec<u8>, AllocError>
        ensures { IfOk result (λ v. v.items ≡ self.now) }
    {
        let mut bytes = Vec::with_capacity(self.alloc, self.len())?;
        for piece in &self.whole {
            bytes.extend_from_slice(piece.as_slice())?;
        }
        bytes.extend_from_slice(self.last.as_slice())?;
        Ok(bytes)
    }
}
