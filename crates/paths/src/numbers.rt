//! Decimal numbers: digits without a leading zero.
#![tactic(auto)]

ghost use Rattle.std.specs.Prelude.{◌≡◌, ◌==◌, ◌||◌, not, slice_index};
ghost use Rattle.paths.specs.Decimal.{has_no_leading_zero, decimal_of, number_up_to, generation_number, session_number};
ghost use Rattle.paths.specs.Root.{is_session};

/// The greatest number of a generation.
pub const MAX_GENERATION: u32 = 9_999;

/// The greatest number of a session.
pub const MAX_SESSION: u32 = 4_194_304;

/// Whether a text begins with a sign that std would read, or with a 0 before other bytes.
fn has_more_before(text: &str) -> bool
    ensures { result ≡ (slice_index text.now 0 == 43 || not (has_no_leading_zero text.now)) }
{
    let bytes = text.as_bytes();
    if bytes.is_empty() {
        return false;
    }
    bytes[0] == b'+' || (bytes[0] == b'0' && bytes.len() > 1)
}

/// The number that a text writes in decimal digits: one or more, the first of several not `0`, no sign,
/// below 2^64. `None` for any other text.
///
/// ```rust
/// assert_eq!(rt; paths::numbers::decimal("120"), Some(120));
/// assert_eq!(rt; paths::numbers::decimal("007"), None);
/// assert_eq!(rt; paths::numbers::decimal("+7"), None);
/// ```
pub fn decimal(text: &str) -> Option<u64>
    ensures { result ≡ decimal_of text.now }
{
    if has_more_before(text) {
        return None;
    }
    match text.parse::<u64>() {
        Ok(number) => Some(number),
        Err(_) => None,
    }
}

/// The number up to `most` that a text writes; 0 for any other text.
fn up_to(most: u64, text: &str) -> u64
    ensures { result ≡ number_up_to most text.now }
{
    match decimal(text) {
        Some(number) if number <= most => number,
        _ => 0,
    }
}

/// The number of a generation, 1 to 9,999. Any other text gives 0, which no profile has.
///
/// ```rust
/// assert_eq!(rt; paths::numbers::generation("9999"), 9_999);
/// assert_eq!(rt; paths::numbers::generation("10000"), 0);
/// assert_eq!(rt; paths::numbers::generation("01"), 0);
/// ```
pub fn generation(text: &str) -> u32
    ensures { result ≡ generation_number text.now }
{
    up_to(MAX_GENERATION as u64, text) as u32
}

/// The number of a session, 1 to 4,194,304. Any other text gives 0, which is no session's.
///
/// ```rust
/// assert_eq!(rt; paths::numbers::session("4194304"), 4_194_304);
/// assert_eq!(rt; paths::numbers::session("4194305"), 0);
/// ```
pub fn session(text: &str) -> u64
    ensures { result ≡ session_number text.now }
{
    up_to(MAX_SESSION as u64, text)
}

/// Whether a session may have this number: 1 to 4,194,304.
///
/// ```rust
/// assert!(rt; paths::numbers::is_session(1));
/// assert!(rt; !paths::numbers::is_session(4_194_305));
/// ```
pub fn is_session(number: u64) -> bool
    ensures { result ≡ is_session number }
{
    1 <= number && number <= MAX_SESSION as u64
}
