//! The text of each answer.
ghost use Rattle.std.specs.Prelude.{◌≡◌, ◌++◌, IfOk, string_bytes};
ghost use Rattle.report.specs.Replies as spec;
ghost use Rattle.model.specs.Reply.{freed};
ghost use Rattle.store_types.specs.View.{answer_view};

use crate::line_pieces::{paths_pieces, roots_pieces};
use crate::records::narinfo;
use crate::usage::usage_text;
use paths::{StoreDir, StorePath};
use std::alloc::{AllocError, Global};
use store_types::Answer;
use streams::{Pieces, in_pieces};

/// The paths that were deleted, a line each, their number and their bytes, in pieces.
fn freed_pieces(
    alloc: Global,
    dir: &StoreDir,
    deleted: &[StorePath],
    bytes: u128,
) -> Result<Pieces, AllocError>
    ensures { IfOk result (λ text. text ≡ spec.answer_text dir.now (freed deleted.now bytes)) }
{
    let mut text = paths_pieces(alloc, dir, deleted)?;
    let count = deleted.len();
    let sum = format!(in alloc; "freed {count} paths {bytes} bytes\n")?;
    text.push(sum.as_str().as_bytes())?;
    Ok(text)
}

/// The bytes of the text of an answer, as a writer or a body has it. `answer_text` takes the answer itself, so it
/// passes on an archive and cuts lines into pieces as it makes them. From a borrowed answer it would copy an archive
/// into pieces that are joined again, so `reply_text`, which borrows its reply, has the bytes from here.
pub(crate) fn answer_bytes(
    alloc: Global,
    dir: &StoreDir,
    answer: &Answer,
) -> Result<Vec<u8>, AllocError>
    ensures { IfOk result (λ text. text.items ≡ spec.answer_text dir.now (answer_view answer.now)) }
{
    let text = match answer {
        Answer::Archive(nar) => return nar.joined(),
        Answer::Freed(paths, bytes) => return freed_pieces(alloc, dir, paths, *bytes)?.joined(),
        Answer::Listing(text) => String::from_str(alloc, text.as_str())?,
        Answer::Path(path) => crate::lists::path_line(alloc, dir, path)?,
        Answer::Record(info) => narinfo(alloc, dir, info)?,
        Answer::Paths(paths) => crate::lists::paths_text(alloc, dir, paths)?,
        Answer::Roots(roots) => crate::lists::roots_text(alloc, dir, roots)?,
        Answer::Changed => String::from_str(alloc, "done\n")?,
        Answer::Generation(number) => format!(in alloc; "generation {number}\n")?,
        Answer::RuntimeCount(count) => format!(in alloc; "runtime roots {count}\n")?,
        Answer::TemporaryCount(count) => format!(in alloc; "temporary roots {count}\n")?,
        Answer::Usage(live, dead, total) => usage_text(alloc, *live, *dead, *total)?,
    };
    Ok(text.into_bytes())
}

/// The text of an archive's listing in pieces. The text isn't copied if it fits one piece, and is copied once
/// otherwise.
fn listing_pieces(alloc: Global, text: String) -> Result<Pieces, AllocError>
    ensures { IfOk result (λ pieces. pieces ≡ string_bytes text) }
{
    let mut pieces = Pieces::new(alloc);
    pieces.append(text.into_bytes())?;
    Ok(pieces)
}

/// The text of an answer in pieces, as a writer or a body has it. An archive isn't copied, and lines of paths or roots
/// aren't held twice.
///
/// ```rust
/// use paths::StoreDir;
/// use store::Answer;
///
/// let dir = StoreDir::parse(alloc, "/nix/store")?;
/// let text = report::answer_text(alloc, &dir, Answer::Generation(2))?;
/// assert_eq!(rt; text.piece(0), b"generation 2\n".as_slice());
/// ```
///
/// # Errors
///
/// Memory was refused.
pub fn answer_text(alloc: Global, dir: &StoreDir, answer: Answer) -> Result<Pieces, AllocError>
    ensures { IfOk result (λ text. text ≡ spec.answer_text dir.now (answer_view answer)) }
{
    match answer {
        Answer::Archive(nar) => Ok(nar),
        Answer::Listing(text) => listing_pieces(alloc, text),
        Answer::Paths(paths) => paths_pieces(alloc, dir, &paths),
        Answer::Roots(roots) => roots_pieces(alloc, dir, &roots),
        Answer::Freed(paths, bytes) => freed_pieces(alloc, dir, &paths, bytes),
        answer => in_pieces(alloc, &answer_bytes(alloc, dir, &answer)?),
    }
}
