//! Plain names: what users, groups, roots and profiles are called.
ghost use Rattle.std.specs.Prelude.{◌≡◌};
ghost use Rattle.std.specs.List.{list_all};
ghost use Rattle.paths.specs.Names.{is_letter_or_digit, is_plain_byte, is_plain_name};

pub(crate) fn is_letter_or_digit(b: u8) -> bool
    ensures { result ≡ is_letter_or_digit b }
{
    matches!(b, b'0'..=b'9' | b'A'..=b'Z' | b'a'..=b'z')
}

fn is_plain_byte(b: u8) -> bool
    ensures { result ≡ is_plain_byte b }
{
    is_letter_or_digit(b) || b == b'_' || b == b'.' || b == b'-'
}

fn all_plain_bytes(bytes: &[u8]) -> bool
    ensures { result ≡ list_all is_plain_byte bytes.now }
{
    bytes.iter().all(|b| is_plain_byte(*b))
}

/// Whether a text is a plain name: 1 to 64 ASCII letters, digits, `_`, `.` and `-`, the first not `-`.
///
/// ```rust
/// assert!(rt; paths::is_plain_name("ann"));
/// assert!(rt; !paths::is_plain_name("-ann"));
/// assert!(rt; !paths::is_plain_name(""));
/// ```
pub fn is_plain_name(text: &str) -> bool
    ensures { result ≡ is_plain_name text.now }
{
    let bytes = text.as_bytes();
    if bytes.is_empty() || bytes.len() > 64 {
        return false;
    }
    if bytes[0] == b'-' {
        return false;
    }
    all_plain_bytes(bytes)
}
