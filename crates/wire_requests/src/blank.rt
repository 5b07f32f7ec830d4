//! Bodies that have to say nothing.
ghost use Rattle.std.specs.Prelude.{◌≡◌, ◌++◌, ℕ, List};
ghost use Rattle.wire_requests.specs.Kept.{allows, blank_of};

use wire_bodies::is_blank;

/// What has come of a body that has to be empty, or one line feed. No byte of it is kept.
#[derive(Clone, Copy, Debug, PartialEq, Eq)]
pub(crate) enum Blank {
    Nothing,
    LineFeed,
    More,
}

impl Blank {
    /// What has come with one more piece.
    pub(crate) fn with(self, piece: &[u8]) -> Blank
        ensures { (all : List ℕ) → self ≡ blank_of all → result ≡ blank_of (all ++ piece.now) }
    {
        if piece.is_empty() {
            return self;
        }
        match self {
            Blank::Nothing => {
                if is_blank(piece) {
                    Blank::LineFeed
                } else {
                    Blank::More
                }
            }
            Blank::LineFeed | Blank::More => Blank::More,
        }
    }

    /// Whether the body says nothing.
    pub(crate) fn is_blank(self) -> bool
        ensures { result ≡ allows self }
    {
        match self {
            Blank::Nothing | Blank::LineFeed => true,
            Blank::More => false,
        }
    }
}
