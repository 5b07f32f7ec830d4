//! The body of a collection.
ghost use Rattle.std.specs.Prelude.{◌≡◌, IfOk, Err};
ghost use Rattle.paths.specs.Decimal.{decimal_of};
ghost use Rattle.wire_bodies.specs.Values.{Answers, values, optional};
ghost use Rattle.wire_bodies.specs.Bodies.{IsCollect};
ghost use Rattle.wire_bodies.specs.declared.collect.CollectHead.{CollectHead as CollectOf};

use crate::entries::{Found, are_known, find_value};
use crate::error::BodyError;
use crate::lines::Lines;
use crate::values::flag_if_any;
use paths::numbers::decimal;

/// What a collection says.
#[derive(Clone, Copy, Debug, PartialEq, Eq)]
pub struct CollectHead {
    /// The number of freed bytes at which the collection stops; none without a limit.
    pub max_freed: Option<u64>,
    pub ignore_liveness: Option<bool>,
}

/// The number of the entry of a key, if there is one.
fn number_if_any(entries: &Lines<'_>, key: &str) -> Result<Option<u64>, BodyError>
    ensures { Answers (λ n. n) (optional decimal_of (values key.now entries.now)) result }
{
    match find_value(entries, key) {
        Found::One(text) => match decimal(text) {
            Some(number) => Ok(Some(number)),
            None => Err(BodyError::BadBodyHead),
        },
        Found::None => Ok(None),
        Found::More => Err(BodyError::BadBodyHead),
    }
}

/// The collection of some entries: `max-freed` and `ignore-liveness`, each at most once.
///
/// # Errors
///
/// `BadBodyHead` if and only if the entries aren't those of a collection.
pub fn collect_head(entries: &Lines<'_>) -> Result<CollectHead, BodyError>
    ensures ok { IfOk result (λ head. IsCollect entries.now head) }
    ensures bad { result ≡ Err BodyError.BadBodyHead → (head : CollectOf) → IsCollect entries.now head → ⊥ }
{
    if !are_known(entries, &["max-freed", "ignore-liveness"]) {
        return Err(BodyError::BadBodyHead);
    }
    Ok(CollectHead {
        max_freed: number_if_any(entries, "max-freed")?,
        ignore_liveness: flag_if_any(entries, "ignore-liveness")?,
    })
}
