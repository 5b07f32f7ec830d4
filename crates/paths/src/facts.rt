//! What is found of an archive whose bytes have passed.

/// What the tests of an object ask of its archive: so nothing looks at its bytes again.
#[derive(Clone, Copy, PartialEq, Eq, Debug)]
pub struct Facts {
    /// SHA-256 of the archive.
    pub nar_hash: [u8; 32],
    /// How many bytes the archive has.
    pub nar_size: u64,
    /// SHA-256 of the contents, where the archive is that of a regular file that isn't executable.
    pub plain: Option<[u8; 32]>,
}
