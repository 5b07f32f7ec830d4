//! Numbers of generations and of sessions.

ghost use Rattle.std.specs.Prelude.{◌≡◌, true, false, pos, MatchOption};
ghost use Rattle.tables_load_roots.specs.Loaded.{is_number, is_session_number, is_up_to};

use paths::numbers::{MAX_GENERATION, MAX_SESSION};

/// The number that a row has, if it is 1 or more, and `most` or less.
fn number_up_to(value: i64, most: u32) -> Option<u32>
    ensures { MatchOption result (is_up_to most value ≡ false) (λ n. (value ≡ pos n) × (is_up_to most value ≡ true)) }
{
    match u32::try_from(value) {
        Ok(number) if 1 <= number && number <= most => Some(number),
        _ => None,
    }
}

/// The number of a generation that a row has, if it is one.
pub(crate) fn number_of(value: i64) -> Option<u32>
    ensures { MatchOption result (is_number value ≡ false) (λ n. (value ≡ pos n) × (is_number value ≡ true)) }
{
    number_up_to(value, MAX_GENERATION)
}

/// The number of a session that a row has, if it is one.
pub(crate) fn session_of(value: i64) -> Option<u32>
    ensures { MatchOption result
        (is_session_number value ≡ false) (λ n. (value ≡ pos n) × (is_session_number value ≡ true)) }
{
    number_up_to(value, MAX_SESSION)
}
