//! The values of entries, by key.
ghost use Rattle.std.specs.Prelude.{◌≡◌, ℕ, List, [], ◌∷◌, ◌++◌};
ghost use Rattle.std.specs.List.{list_any};
ghost use Rattle.std.specs.Str.{bytes_eq};
ghost use Rattle.wire_bodies.specs.Values.{Are, values, are_known, texts};

use crate::lines::Lines;

/// The values of a key.
#[derive(Clone, Copy)]
pub enum Found<'b> {
    None,
    One(&'b str),
    More,
}

/// The values, with another one appended.
fn with_one_more<'b>(found: Found<'b>, value: &'b str) -> Found<'b>
    ensures { (vs : List (List ℕ)) → Are vs found.entry → Are (vs ++ value.now ∷ []) result }
{
    match found {
        Found::None => Found::One(value),
        _ => Found::More,
    }
}

/// The values of a key.
pub fn find_value<'b>(entries: &Lines<'b>, key: &str) -> Found<'b>
    ensures { Are (values key.now entries.now) result }
{
    let mut found = Found::None;
    let mut left = entries.again();
    'lines: loop {
        let Some((name, value)) = left.take_entry() else {
            return found;
        };
        if name == key {
            found = with_one_more(found, value);
        }
    }
}

/// Whether a key is among `keys`.
fn is_among(key: &str, keys: &[&str]) -> bool
    ensures { result ≡ list_any (bytes_eq key.now) (texts keys.now) }
{
    for other in keys {
        if key == *other {
            return true;
        }
    }
    false
}

/// Whether each key of the entries is among `keys`. No entry after the first other key is examined.
pub fn are_known(entries: &Lines<'_>, keys: &[&str]) -> bool
    ensures { result ≡ are_known (texts keys.now) entries.now }
{
    let mut left = entries.again();
    'lines: loop {
        let Some((name, _)) = left.take_entry() else {
            return true;
        };
        if !is_among(name, keys) {
            return false;
        }
    }
}
