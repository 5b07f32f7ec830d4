//! Laws of the definitions: each is the contract of a function with an empty body.

ghost use Rattle.std.specs.Prelude.{◌≡◌, ◌≢◌, ℕ, ◌+◌, ◌^◌, ◌<◌, ◌≤◌, List, length, take, Ok, Err, false, ◌↔◌, ◌⊎◌};
ghost use Rattle.nar.specs.declared.error.NarError.{NarError as Fault};
ghost use Rattle.nar.specs.declared.error.NarError.TheVariants.{Memory as memory, TooLarge as too_large};
ghost use Rattle.nar.specs.String.{padded};
ghost use Rattle.nar.specs.Tree.{Tree, regular, IsBytes};
ghost use Rattle.nar.specs.Archive.{archive, spelling, limit, IsArchive};
ghost use Rattle.nar.specs.Fault.{IsFault};
ghost use Rattle.nar.specs.Outcome.{outcome_of};

/// Each input is the archive of one tree, or has one fault, and never both.
pub fn each_input_is_an_archive_or_has_one_fault()
    ensures either { (input : List ℕ) → IsBytes input
        → ((t : Tree) × IsArchive t input) ⊎ ((e : Fault) × IsFault input e) }
    ensures not_both { (input : List ℕ) (t : Tree) (e : Fault) → IsBytes input → IsArchive t input → ¬ IsFault input e }
    ensures one_fault { (input : List ℕ) (e f : Fault) → IsBytes input → IsFault input e → IsFault input f → e ≡ f }
    // That memory ran out says nothing about the input.
    ensures no_memory { (input : List ℕ) → ¬ IsFault input memory }
{}

/// A tree has one spelling, and an archive one tree.
pub fn a_tree_has_one_archive()
    ensures one_spelling { (t : Tree) (a b : List ℕ) → IsArchive t a → IsArchive t b → a ≡ b }
    ensures one_tree { (input : List ℕ) (t u : Tree) → IsArchive t input → IsArchive u input → t ≡ u }
{}

/// The function `outcome_of` says which tree an input is the archive of, or which fault it has.
pub fn the_outcome_is_exact()
    ensures tree { (input : List ℕ) (t : Tree) → IsBytes input → (outcome_of input ≡ Ok t) ↔ IsArchive t input }
    ensures fault { (input : List ℕ) (e : Fault) → IsBytes input → (outcome_of input ≡ Err e) ↔ IsFault input e }
{}

/// The archive of a regular file that isn't executable has 112 bytes besides its padded contents. It is read as
/// that file, and is too large exactly where these pass the limit.
pub fn the_archive_of_a_file()
    ensures size { (contents : List ℕ)
        → length (spelling (archive (regular false contents))) ≡ 112 + padded (length contents) }
    ensures is_read { (contents : List ℕ) → IsBytes contents → 112 + padded (length contents) ≤ limit
        → outcome_of (spelling (archive (regular false contents))) ≡ Ok (regular false contents) }
    ensures is_too_large { (contents : List ℕ) → IsBytes contents → length contents < 2 ^ 64
        → limit < 112 + padded (length contents)
        → outcome_of (spelling (archive (regular false contents))) ≡ Err too_large }
{}

/// The first 16,777,224 bytes of an input decide what it is, so a caller needn't store more. They are 8 more than an
/// archive may have, since a string that begins at the limit has a length before it is found too large.
pub fn a_prefix_decides()
    ensures { (input : List ℕ) → outcome_of (take (limit + 8) input) ≡ outcome_of input }
{}
