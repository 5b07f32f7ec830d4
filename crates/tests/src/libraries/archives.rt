//! Archives by their words, and the fault of an answer.
use nar::NarError;
use std::alloc::{AllocError, Global};

/// The archive of a file whose contents are `mycontent` and a line feed.
pub const MY_FILE: &[u8] = b"\x0d\0\0\0\0\0\0\0nix-archive-1\0\0\0\
\x01\0\0\0\0\0\0\0(\0\0\0\0\0\0\0\
\x04\0\0\0\0\0\0\0type\0\0\0\0\
\x07\0\0\0\0\0\0\0regular\0\
\x08\0\0\0\0\0\0\0contents\
\x0a\0\0\0\0\0\0\0mycontent\n\0\0\0\0\0\0\
\x01\0\0\0\0\0\0\0)\0\0\0\0\0\0\0";

/// Words with a blank between them, each as an archive spells a string; `-` stands for the empty string.
pub fn spelled(alloc: Global, words: &str) -> Result<Vec<u8>, AllocError> {
    let mut out = Vec::new(alloc);
    for word in words.split(' ') {
        let text = if word == "-" { "" } else { word };
        out.extend_from_slice(&(text.len() as u64).to_le_bytes())?;
        out.extend_from_slice(text.as_bytes())?;
        for _ in 0..(8 - text.len() % 8) % 8 {
            out.push(0)?;
        }
    }
    Ok(out)
}

pub fn prefix(bytes: &[u8], len: usize) -> &[u8] {
    &bytes[..len.min(bytes.len())]
}

pub fn fault_of<T: Drop>(answer: Result<T, NarError>) -> Option<NarError> {
    match answer {
        Ok(_) => None,
        Err(e) => Some(e),
    }
}
