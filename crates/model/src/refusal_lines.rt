//! The lines of refusals, without memory.
ghost use Rattle.std.specs.Prelude.{◌≡◌};
ghost use Rattle.model.specs.Refusals as spec;

use crate::refusal::Refusal;
use policy::KeyWord;

/// The line of a refusal: its number and its name, for a configuration the key word, and a line feed.
///
/// ```rust
/// assert_eq!(rt; model::refusal_line(model::Refusal::NotValid), "refused: 23 not-valid\n");
/// ```
pub fn refusal_line(refusal: Refusal) -> &'static str
    ensures { result.now ≡ spec.refusal_line refusal }
{
    match refusal {
        Refusal::Truncated => "refused: 1 truncated\n",
        Refusal::BadTag => "refused: 2 bad-tag\n",
        Refusal::BadPadding => "refused: 3 bad-padding\n",
        Refusal::BadName => "refused: 4 bad-name\n",
        Refusal::NotSorted => "refused: 5 not-sorted\n",
        Refusal::TooDeep => "refused: 6 too-deep\n",
        Refusal::Trailing => "refused: 7 trailing\n",
        Refusal::TooLarge => "refused: 8 too-large\n",
        Refusal::BadDigit => "refused: 9 bad-digit\n",
        Refusal::BadLength => "refused: 10 bad-length\n",
        Refusal::Overflow => "refused: 11 overflow\n",
        Refusal::BadStoreName => "refused: 12 bad-store-name\n",
        Refusal::BadStoreDir => "refused: 13 bad-store-dir\n",
        Refusal::BadStorePath => "refused: 14 bad-store-path\n",
        Refusal::BadCa => "refused: 15 bad-ca\n",
        Refusal::CaMismatch => "refused: 16 ca-mismatch\n",
        Refusal::BadDerivation => "refused: 17 bad-derivation\n",
        Refusal::DoubleOutput => "refused: 18 double-output\n",
        Refusal::BadConfig(word) => bad_config_line(word),
        Refusal::BadCaller => "refused: 20 bad-caller\n",
        Refusal::BadSchema => "refused: 21 bad-schema\n",
        Refusal::OtherStoreDir => "refused: 22 other-store-dir\n",
        Refusal::NotValid => "refused: 23 not-valid\n",
        Refusal::MissingReference => "refused: 24 missing-reference\n",
        Refusal::NarHashMismatch => "refused: 25 nar-hash-mismatch\n",
        Refusal::SelfReference => "refused: 26 self-reference\n",
        Refusal::NoRoot => "refused: 27 no-root\n",
        Refusal::NoProfile => "refused: 28 no-profile\n",
        Refusal::NoGeneration => "refused: 29 no-generation\n",
        Refusal::CurrentGeneration => "refused: 30 current-generation\n",
        Refusal::NoOlderGeneration => "refused: 31 no-older-generation\n",
        Refusal::GenerationLimit => "refused: 32 generation-limit\n",
        Refusal::TooManyReferences => "refused: 33 too-many-references\n",
        Refusal::BadRootName => "refused: 34 bad-root-name\n",
        Refusal::BadLabel => "refused: 35 bad-label\n",
        Refusal::BadHead => "refused: 36 bad-head\n",
        Refusal::BadBodyLength => "refused: 37 bad-length\n",
        Refusal::BodyTooLarge => "refused: 38 too-large\n",
        Refusal::NoRoute => "refused: 39 no-route\n",
        Refusal::BadMethod => "refused: 40 bad-method\n",
        Refusal::BadBodyHead => "refused: 41 bad-body-head\n",
        Refusal::BadSession => "refused: 42 bad-session\n",
    }
}

fn bad_config_line(word: KeyWord) -> &'static str
    ensures { result.now ≡ spec.refusal_line (Refusal.BadConfig word) }
{
    match word {
        KeyWord::Syntax => "refused: 19 bad-config syntax\n",
        KeyWord::UnknownKey => "refused: 19 bad-config unknown-key\n",
        KeyWord::StoreDir => "refused: 19 bad-config store-dir\n",
        KeyWord::AllowedUsers => "refused: 19 bad-config allowed-users\n",
        KeyWord::TrustedUsers => "refused: 19 bad-config trusted-users\n",
        KeyWord::KeepOutputs => "refused: 19 bad-config keep-outputs\n",
        KeyWord::KeepDerivations => "refused: 19 bad-config keep-derivations\n",
        KeyWord::Groups => "refused: 19 bad-config groups\n",
    }
}
