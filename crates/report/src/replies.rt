//! The text of each reply.
ghost use Rattle.std.specs.Prelude.{◌≡◌, ◌++◌, IfOk, OnErr, OnOk};
ghost use Rattle.report.specs.Replies as spec;
ghost use Rattle.store_types.specs.View.{reply_view};

use crate::answers::{answer_bytes, answer_text};
use crate::denials::denied_line;
use crate::failures::failure_line;
use model::refusal_line;
use paths::StoreDir;
use std::alloc::{AllocError, Global};
use store_types::Reply;
use streams::{Pieces, in_pieces};

/// Appends the whole text of a reply, as a writer or a body has it.
///
/// ```rust
/// use paths::StoreDir;
/// use policy::Rule;
/// use store::Reply;
///
/// let dir = StoreDir::parse(alloc, "/nix/store")?;
/// let mut text = Vec::new(alloc);
/// report::reply_text(alloc, &dir, &Reply::Denied(Rule::Connect, None), &mut text)?;
/// assert_eq!(rt; text.as_slice(), b"denied: connect\n".as_slice());
/// ```
///
/// # Errors
///
/// Memory was refused. Nothing is appended.
pub fn reply_text(
    alloc: Global,
    dir: &StoreDir,
    reply: &Reply,
    text: &mut Vec<u8>,
) -> Result<(), AllocError>
    ensures ok { OnOk result (text.new.items ≡ text.old.items ++ spec.reply_text dir.now (reply_view reply.now)) }
    ensures err { OnErr result (text.new.items ≡ text.old.items) }
{
    match reply {
        Reply::Done(answer) => {
            let bytes = answer_bytes(alloc, dir, answer)?;
            text.extend_from_slice(&bytes)
        }
        Reply::Denied(rule, root) => {
            let line = denied_line(alloc, dir, *rule, root)?;
            text.extend_from_slice(line.as_str().as_bytes())
        }
        Reply::Refused(refusal) => text.extend_from_slice(refusal_line(*refusal).as_bytes()),
        Reply::Failed(failure) => text.extend_from_slice(failure_line(*failure).as_bytes()),
    }
}

/// The text of a reply in pieces. An archive isn't copied.
///
/// ```rust
/// use paths::StoreDir;
/// use store::{Answer, Reply};
///
/// let dir = StoreDir::parse(alloc, "/nix/store")?;
/// let text = report::reply_pieces(alloc, &dir, Reply::Done(Answer::Freed(Vec::new(alloc), 0)))?;
/// assert_eq!(rt; text.piece(0), b"freed 0 paths 0 bytes\n".as_slice());
/// ```
///
/// # Errors
///
/// Memory was refused.
pub fn reply_pieces(alloc: Global, dir: &StoreDir, reply: Reply) -> Result<Pieces, AllocError>
    ensures { IfOk result (λ text. text ≡ spec.reply_text dir.now (reply_view reply)) }
{
    match reply {
        Reply::Done(answer) => answer_text(alloc, dir, answer),
        reply => {
            let mut text = Vec::new(alloc);
            reply_text(alloc, dir, &reply, &mut text)?;
            in_pieces(alloc, &text)
        }
    }
}
