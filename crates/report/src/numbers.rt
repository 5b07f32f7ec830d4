//! Refusals by their numbers.
ghost use Rattle.std.specs.Prelude.{◌≡◌, ◌≤◌, ◌++◌, OnErr, OnOk};
ghost use Rattle.model.specs.declared.refusal.Refusal.{Refusal as TheRefusal};
ghost use Rattle.model.specs.Refusals.{number as number_of, known_text};

use model::{Refusal, refusal_line};
use policy::KeyWord;
use std::alloc::AllocError;

/// The refusals in the order of their numbers, which begin with 1; that of a configuration with one of its key words.
const TABLE: [Refusal; 42] = [
    Refusal::Truncated,
    Refusal::BadTag,
    Refusal::BadPadding,
    Refusal::BadName,
    Refusal::NotSorted,
    Refusal::TooDeep,
    Refusal::Trailing,
    Refusal::TooLarge,
    Refusal::BadDigit,
    Refusal::BadLength,
    Refusal::Overflow,
    Refusal::BadStoreName,
    Refusal::BadStoreDir,
    Refusal::BadStorePath,
    Refusal::BadCa,
    Refusal::CaMismatch,
    Refusal::BadDerivation,
    Refusal::DoubleOutput,
    Refusal::BadConfig(KeyWord::Syntax),
    Refusal::BadCaller,
    Refusal::BadSchema,
    Refusal::OtherStoreDir,
    Refusal::NotValid,
    Refusal::MissingReference,
    Refusal::NarHashMismatch,
    Refusal::SelfReference,
    Refusal::NoRoot,
    Refusal::NoProfile,
    Refusal::NoGeneration,
    Refusal::CurrentGeneration,
    Refusal::NoOlderGeneration,
    Refusal::GenerationLimit,
    Refusal::TooManyReferences,
    Refusal::BadRootName,
    Refusal::BadLabel,
    Refusal::BadHead,
    Refusal::BadBodyLength,
    Refusal::BodyTooLarge,
    Refusal::NoRoute,
    Refusal::BadMethod,
    Refusal::BadBodyHead,
    Refusal::BadSession,
];

/// The line of a refusal, as far as its number determines it.
fn known_line(refusal: Refusal) -> &'static str
    ensures { result.now ≡ known_text refusal }
{
    match refusal {
        Refusal::BadConfig(_) => "refused: 19 bad-config",
        _ => refusal_line(refusal),
    }
}

/// Appends the line of the refusal of a number, 1 to 42. Of 19, `bad-config`, it is the number and the name alone,
/// since a key word and a line feed follow.
///
/// ```rust
/// let mut text = Vec::new(alloc);
/// report::refusal_text(39, &mut text)?;
/// assert_eq!(rt; text.as_slice(), b"refused: 39 no-route\n".as_slice());
/// ```
///
/// # Errors
///
/// Memory was refused. Nothing is appended.
pub fn refusal_text(number: usize, text: &mut Vec<u8>) -> Result<(), AllocError>
    requires { (1 ≤ number) × (number ≤ 42) }
    ensures ok { OnOk result ((r : TheRefusal) → number_of r ≡ number
        → text.new.items ≡ text.old.items ++ known_text r) }
    ensures err { OnErr result (text.new.items ≡ text.old.items) }
{
    text.extend_from_slice(known_line(TABLE[number - 1]).as_bytes())
}
