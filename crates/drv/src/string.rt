//! Strings of a derivation text, and single bytes of it.

ghost use Rattle.std.specs.Prelude.{◌≡◌, false};
ghost use Rattle.std.specs.Option.{option_copied};
ghost use Rattle.drv.specs.Answer.{Gives};
ghost use Rattle.drv.specs.Reading as reading;
ghost use Rattle.drv.specs.Reading.{string_at, string_end};

use crate::error::DrvError;
use std::alloc::Global;

/// What follows this byte, where it comes first.
pub fn after(text: &[u8], byte: u8) -> Option<&[u8]>
    ensures { option_copied result ≡ reading.after byte text.now }
{
    match text {
        [] => None,
        [first, rest @ ..] => { if *first == byte { Some(rest) } else { None } }
    }
}

/// The byte that a letter after a backslash means.
fn unescaped(letter: u8) -> Option<u8>
    ensures { result ≡ reading.unescaped letter }
{
    match letter {
        b'"' | b'\\' => Some(letter),
        b'n' => Some(b'\n'),
        b'r' => Some(b'\r'),
        b't' => Some(b'\t'),
        _ => None,
    }
}

/// What follows a string.
#[tactic(auto, unfolding(crate::specs::Reading::string_end, crate::specs::Reading::string_at))]
pub fn skip_string(text: &[u8]) -> Option<&[u8]>
    ensures { option_copied result ≡ string_end text.now }
{
    let body = after(text, b'"')?;
    skip_body(body)
}

/// What follows the quote that ends a string.
fn skip_body(body: &[u8]) -> Option<&[u8]>
    ensures { option_copied result ≡ reading.rest_of (reading.body_at false body.now) }
{
    let mut escaped = false;
    for (i, b) in body.iter().enumerate() {
        if escaped {
            unescaped(*b)?;
            escaped = false;
        } else if *b == b'"' {
            return Some(&body[i + 1..]);
        } else if *b == b'\\' {
            escaped = true;
        }
    }
    None
}

/// The bytes that a string means, and what follows it.
#[tactic(auto, unfolding(crate::specs::Reading::string_at))]
pub fn string_of(alloc: Global, text: &[u8]) -> Result<(Vec<u8>, &[u8]), DrvError>
    ensures { Gives (λ x. (x.0.items, x.1.now)) result (string_at text.now) }
{
    let body = after(text, b'"').ok_or(DrvError::BadDerivation)?;
    body_of(alloc, body)
}

/// The bytes that are meant up to the quote that ends a string, and what follows it.
fn body_of(alloc: Global, body: &[u8]) -> Result<(Vec<u8>, &[u8]), DrvError>
    ensures { Gives (λ x. (x.0.items, x.1.now)) result (reading.body_at false body.now) }
{
    let mut bytes = Vec::new(alloc);
    let mut escaped = false;
    for (i, b) in body.iter().enumerate() {
        if escaped {
            let Some(byte) = unescaped(*b) else {
                return Err(DrvError::BadDerivation);
            };
            bytes.push(byte)?;
            escaped = false;
        } else if *b == b'"' {
            return Ok((bytes, &body[i + 1..]));
        } else if *b == b'\\' {
            escaped = true;
        } else {
            bytes.push(*b)?;
        }
    }
    Err(DrvError::BadDerivation)
}
