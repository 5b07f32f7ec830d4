//! Readers and writers that move few bytes a call and fail at one of the calls, and a keeper of bodies that is refused
//! memory.
use std::alloc::AllocError;
use std::io;
use std::io::{ErrorKind, Read, Write};
use wire_server::Keeper;

/// A reader that gives at most `most` bytes a call, and has this fault once `calls` are used up.
#[derive(Drop)]
pub struct Drip<'a> {
    pub rest: &'a [u8],
    pub most: usize,
    pub calls: usize,
    pub fault: ErrorKind,
}

impl Read for Drip<'_> {
    fn read(&mut self, buf: &mut [u8]) -> io::Result<usize> {
        if self.calls == 0 {
            return Err(io::Error::from(self.fault));
        }
        self.calls -= 1;
        let count = self.most.min(self.rest.len()).min(buf.len());
        let (given, rest) = self.rest.split_at(count);
        buf[..count].copy_from_slice(given);
        self.rest = rest;
        Ok(count)
    }
}

/// A writer that takes at most `most` bytes a call. The call after `calls` of them has this fault, or takes no byte.
#[derive(Drop)]
pub struct Narrow {
    pub written: Vec<u8>,
    pub most: usize,
    pub calls: usize,
    pub fault: Option<ErrorKind>,
}

impl Write for Narrow {
    fn write(&mut self, buf: &[u8]) -> io::Result<usize> {
        if self.calls == 0 {
            return match self.fault {
                Some(fault) => Err(io::Error::from(fault)),
                None => Ok(0),
            };
        }
        self.calls -= 1;
        let count = self.most.min(buf.len());
        self.written.extend_from_slice(&buf[..count])?;
        Ok(count)
    }

    fn flush(&mut self) -> io::Result<()> {
        Ok(())
    }
}

/// A keeper of a body that is refused memory for more than `room` bytes.
#[derive(Drop)]
pub struct Tight {
    pub held: Vec<u8>,
    pub room: usize,
}

impl Keeper for Tight {
    ghost use Rattle.std.specs.Prelude.{◌≡◌};

    ghost represents = { λ it all. it.held.items ≡ all };

    fn keep(&mut self, piece: &[u8]) -> Result<(), AllocError> {
        if piece.len() > self.room.saturating_sub(self.held.len()) {
            return Err(AllocError);
        }
        self.held.extend_from_slice(piece)
    }
}
