//! Strings of an archive: a length, the bytes, and zero bytes up to a multiple of 8.

ghost use Rattle.std.specs.Prelude.{◌≡◌, ℕ, ◌<◌, ◌≤◌, slice_index, ◌==◌, [], ◌∷◌, length, IfOk, IfErr, Err};
ghost use Rattle.std.specs.List.{list_all};
ghost use Rattle.nar.specs.String.{string_at, length_at as number_at};
ghost use Rattle.nar.specs.Archive.{other};
ghost use Rattle.nar.specs.Steps.{word as fixed};
ghost use Rattle.nar.specs.Reader.{ReadsString, Reads, FaultOf};

use crate::error::NarError;

/// The rest of the input, and how many bytes of it an archive may still take.
#[derive(Clone, Copy)]
pub struct Place<'a> {
    pub rest: &'a [u8],
    pub room: usize,
}

pub fn are_zeros(bytes: &[u8]) -> bool
    ensures { result ≡ list_all (λ b. b == 0) bytes.now }
{
    bytes.iter().all(|b| *b == 0)
}

/// The number that the first 8 bytes spell.
pub fn length_at(bytes: &[u8]) -> u64
    requires { 8 ≤ length bytes.now }
    ensures value { result ≡ number_at bytes.now }
    ensures bytes { (i : ℕ) → slice_index bytes.now i < 256 }
{
    let (head, _) = bytes.split_at(8);
    u64::from_le_bytes([
        head[0], head[1], head[2], head[3], head[4], head[5], head[6], head[7],
    ])
}

/// The next string, and the place after it.
#[tactic(auto, unfolding(crate::specs::String::string_of_length))]
pub fn string_of(at: Place<'_>) -> Result<(&[u8], Place<'_>), NarError>
    ensures ok { IfOk result (λ x. ReadsString at.entry.room at.entry.rest.now x.0.now x.1.room x.1.rest.now) }
    ensures err { IfErr result (λ e. string_at at.entry.room at.entry.rest.now ≡ Err e) }
{
    let rest = at.rest;
    if rest.len() < 8 {
        return Err(NarError::Truncated);
    }
    let len = length_at(rest);
    let size = 8 + 8 * ((u128::from(len) + 7) / 8);
    if (at.room as u128) < size {
        return Err(NarError::TooLarge);
    }
    let len = len as usize;
    let size = size as usize;
    if rest.len() < size {
        return Err(NarError::Truncated);
    }
    let body = &rest[8..];
    let (text, tail) = body.split_at(len);
    let padding = &tail[..size - 8 - len];
    if !are_zeros(padding) {
        return Err(NarError::BadPadding);
    }
    let room = at.room - size;
    let rest = &rest[size..];
    Ok((text, Place { rest, room }))
}

/// The place after the string, which has to be this word.
pub fn word_of<'a>(at: Place<'a>, word: &[u8]) -> Result<Place<'a>, NarError>
    ensures ok { IfOk result (λ x. Reads at.entry.room at.entry.rest.now (other word.now ∷ []) x.room x.rest.now) }
    ensures err { IfErr result (FaultOf (fixed word.now ∷ []) at.entry.room at.entry.rest.now) }
{
    let (text, after) = string_of(at)?;
    if text != word {
        return Err(NarError::BadTag);
    }
    Ok(after)
}
