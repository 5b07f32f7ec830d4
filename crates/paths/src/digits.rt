//! Nix's base 32.
ghost use Rattle.std.specs.Prelude.{◌≡◌, ◌≢◌, ◌⊎◌, ◌+◌, ◌*◌, ◌^◌, ◌<◌, ◌≤◌, ◌/◌, ◌%◌, ℕ, nat_lt, length, None, Some};
ghost use Rattle.std.specs.Prelude.{IfOk, IfErr, string_bytes, slice_index, vec_len, replicate, true, false, Err};
ghost use Rattle.paths.specs.declared.digits.Base32Error.TheVariants.{Memory};
ghost use Rattle.paths.specs.Base32 as spec;
ghost use Rattle.paths.specs.Base32.{value_of, number_of, read_after, digit_count, all_digits, Spells};

use std::alloc::{AllocError, Global};
use thiserror::Error;

/// Why a text isn't the base 32 of that number of bytes.
#[derive(Clone, Copy, PartialEq, Eq, Debug, Error)]
pub enum Base32Error {
    /// A byte isn't a digit.
    #[error("bad-digit")]
    BadDigit,
    /// The text has another count of digits.
    #[error("bad-length")]
    BadLength,
    /// The number needs more bytes.
    #[error("overflow")]
    Overflow,
    /// Memory was refused.
    #[error("memory")]
    Memory,
}

impl From<AllocError> for Base32Error {
    ghost from_gives = { λ _ e. e ≡ Memory };

    fn from(_: AllocError) -> Base32Error {
        Base32Error::Memory
    }
}

const DIGITS: &[u8; 32] = b"0123456789abcdfghijklmnpqrsvwxyz";

fn digit_of(value: u8) -> char
    requires { value < 32 }
    ensures digit { value_of result ≡ value }
    ensures ascii { result < 128 }
{
    DIGITS[value as usize] as char
}

/// The byte at an index, or 0 past the end.
fn byte_or_zero(bytes: &[u8], index: usize) -> u8
    ensures { result ≡ slice_index bytes.now index }
{
    match bytes.get(index) {
        Some(byte) => *byte,
        None => 0,
    }
}

/// The digit at a place, counted from the least.
fn digit_at(bytes: &[u8], place: usize) -> u8
    requires { place < 128 }
    ensures value { result ≡ number_of bytes.now / 32 ^ place % 32 }
    ensures digit { result < 32 }
{
    let bit = place * 5;
    let low = u16::from(byte_or_zero(bytes, bit / 8));
    let high = u16::from(byte_or_zero(bytes, bit / 8 + 1));
    let pair = low + 256 * high;
    ((pair >> (bit % 8)) % 32) as u8
}

/// The base 32 text of some bytes, 64 at most: the first byte counts least, and the first digit most.
///
/// ```rust
/// assert_eq!(rt; paths::base32(alloc, &[0xff])?.as_str(), "7z");
/// assert_eq!(rt; paths::base32(alloc, &[0xff; 20])?.as_str(), "zzzzzzzzzzzzzzzzzzzzzzzzzzzzzzzz");
/// assert_eq!(rt; paths::base32(alloc, b"")?.as_str(), "");
/// ```
///
/// # Errors
///
/// Memory was refused.
pub fn base32(alloc: Global, bytes: &[u8]) -> Result<String, AllocError>
    requires { length bytes.now ≤ 64 }
    ensures spells { IfOk result (λ text. Spells (string_bytes text) bytes.now) }
    ensures value { IfOk result (λ text. string_bytes text ≡ spec.base32 bytes.now) }
    ensures back { IfOk result (λ text. spec.unbase32 (string_bytes text) (length bytes.now) ≡ Ok bytes.now) }
{
    let count = (bytes.len() * 8 + 4) / 5;
    let mut text = String::new(alloc);
    for place in (0..count).rev() {
        text.push(digit_of(digit_at(bytes, place)))?;
    }
    Ok(text)
}

/// The value of a digit, or 32 of another byte.
fn digit_value(digit: u8) -> usize
    ensures { result ≡ value_of digit }
{
    match DIGITS.iter().position(|d| *d == digit) {
        Some(value) => value,
        None => DIGITS.len(),
    }
}

fn is_digit(digit: u8) -> bool
    ensures { result ≡ nat_lt (value_of digit) 32 }
{
    digit_value(digit) < 32
}

pub(crate) fn all_digits(text: &[u8]) -> bool
    ensures { result ≡ all_digits text.now }
{
    text.iter().all(|digit| is_digit(*digit))
}

/// Appends a digit to a number, and returns the carry that has no room.
fn append_digit(bytes: &mut [u8], digit: u8) -> u8
    requires { digit < 32 }
    ensures { number_of bytes.new + 256 ^ length bytes.old * result ≡ number_of bytes.old * 32 + digit }
{
    let mut carry = digit;
    for byte in bytes.iter_mut() {
        let sum = u16::from(*byte) * 32 + u16::from(carry);
        *byte = (sum % 256) as u8;
        carry = (sum / 256) as u8;
    }
    carry
}

/// The bytes that a text of base 32 spells, of which there are `count`, 64 at most.
///
/// ```rust
/// use paths::Base32Error;
///
/// assert_eq!(rt; paths::unbase32(alloc, "7z", 1)?.as_slice(), [0xff].as_slice());
/// assert_eq!(rt; paths::unbase32(alloc, "7e", 1).err(), Some(Base32Error::BadDigit));
/// assert_eq!(rt; paths::unbase32(alloc, "7", 1).err(), Some(Base32Error::BadLength));
/// assert_eq!(rt; paths::unbase32(alloc, "zz", 1).err(), Some(Base32Error::Overflow));
/// ```
///
/// # Errors
///
/// The first that applies: `BadDigit` if a byte isn't a digit; `BadLength` if there are more or fewer digits than
/// `count` bytes need; `Overflow` if the number that they spell needs more bytes. `Memory` if memory was refused, never
/// ahead of the first two.
pub fn unbase32(alloc: Global, text: &str, count: usize) -> Result<Vec<u8>, Base32Error>
    requires { count ≤ 64 }
    ensures ok { IfOk result (λ bytes. spec.unbase32 text.now count ≡ Ok bytes.items) }
    ensures err { IfErr result (λ e. (e ≡ Base32Error.Memory) ⊎ (spec.unbase32 text.now count ≡ Err e)) }
    // The first two faults are returned before memory is allocated.
    ensures digit { all_digits text.now ≡ false → result ≡ Err Base32Error.BadDigit }
    ensures count { all_digits text.now ≡ true → length text.now ≢ digit_count count
        → result ≡ Err Base32Error.BadLength }
    ensures spells { IfOk result (λ bytes. Spells text.now bytes.items × (vec_len bytes ≡ count)) }
    ensures back { IfOk result (λ bytes. spec.base32 bytes.items ≡ text.now) }
{
    let digits = text.as_bytes();
    if !all_digits(digits) {
        return Err(Base32Error::BadDigit);
    }
    if digits.len() != (8 * count + 4) / 5 {
        return Err(Base32Error::BadLength);
    }
    let mut bytes = zeros(alloc, count)?;
    if !append_digits(&mut bytes, digits) {
        return Err(Base32Error::Overflow);
    }
    Ok(bytes)
}

fn zeros(alloc: Global, count: usize) -> Result<Vec<u8>, AllocError>
    ensures len { IfOk result (λ bytes. vec_len bytes ≡ count) }
    ensures zero { IfOk result (λ bytes. bytes.items ≡ replicate count 0) }
{
    vec![in alloc; 0; count]
}

/// Appends digits to the number 0, and returns whether it had room.
fn append_digits(bytes: &mut [u8], digits: &[u8]) -> bool
    requires zero { number_of bytes.old ≡ 0 }
    requires digits { all_digits digits.now ≡ true }
    ensures fits { result ≡ nat_lt (read_after 0 digits.now) (256 ^ length bytes.old) }
    ensures number { result ≡ true → number_of bytes.new ≡ read_after 0 digits.now }
    ensures bytes { (i : ℕ) → slice_index bytes.new i < 256 }
{
    for digit in digits {
        let value = digit_value(*digit) as u8;
        if append_digit(bytes, value) != 0 {
            return false;
        }
    }
    true
}
