//! The three streams of a command line, as one value.

/// References to the caller's streams. It is its own view: contracts name each stream by its field, so no two can be
/// exchanged.
#[derive(Drop)]
pub struct Console<'i, 'o, 'e, R, W, E> {
    /// What is read.
    pub input: &'i mut R,
    /// Where results go.
    pub output: &'o mut W,
    /// Where refusals, failures and what is wrong with the words go.
    pub errors: &'e mut E,
}
