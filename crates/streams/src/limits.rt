//! The limits of a store.

/// How many bytes a piece has at most: of an archive in memory and in a row, and of what is read or written at once.
pub const PIECE_SIZE: usize = 65_536;

/// How many bytes an archive has at most.
pub const MAX_ARCHIVE: usize = 16_777_216;

/// How many references an object has at most.
pub const MAX_REFERENCES: usize = 4_096;
