//! The head of a message at the beginning of a buffer.
ghost use Rattle.std.specs.Prelude.{◌≡◌, ◌≤◌, ◌||◌, true, take, length};
ghost use Rattle.httparse.specs.Grammar.{HasNoRequest};
ghost use Rattle.wire_server.specs.Heads.{WasSeen, has_begun_in};
ghost use Rattle.wire_server.specs.Messages.{LookFinds, FindsSoon};

use crate::error::Fault;
use httparse::Status;
use httparse::spans::{EMPTY_HEADER_SPAN, HeaderSpan, RequestSpans, parse_request};

/// How many bytes a head has at most.
pub const MAX_HEAD: usize = 16_384;

/// Where the parts of a head are in a buffer that begins with it.
#[derive(Clone, Copy)]
pub struct Head {
    pub spans: RequestSpans,
    /// The places of the fields, of which `spans.headers` are there.
    pub fields: [HeaderSpan; 64],
}

/// Looks for a head at the beginning of a buffer, whose first `seen` bytes were found to have none. It may not be
/// complete yet.
///
/// # Errors
///
/// `BadHead` if the bytes don't begin with a head, whatever follows.
pub fn look_for_head(buf: &[u8], seen: usize) -> Result<Status<Head>, Fault>
    requires within { seen ≤ length buf.now }
    requires none { HasNoRequest (take seen buf.now) }
    ensures found { LookFinds buf.now result }
    ensures soon { FindsSoon buf.now seen result }
{
    if !buf[seen..].contains(&b'\n') {
        return without_head(buf);
    }
    let mut fields = [EMPTY_HEADER_SPAN; 64];
    match parse_request(buf, &mut fields) {
        Ok(Status::Complete(spans)) => {
            if spans.len <= MAX_HEAD {
                Ok(Status::Complete(Head { spans, fields }))
            } else {
                Err(Fault::BadHead)
            }
        }
        Ok(Status::Partial) => without_head(buf),
        Err(_) => Err(Fault::BadHead),
    }
}

/// Whether a byte other than those of line ends is among the bytes.
fn is_begun(bytes: &[u8]) -> bool
    ensures { result ≡ has_begun_in bytes.now }
{
    bytes.iter().any(|b| !(*b == b'\r' || *b == b'\n'))
}

/// Whether a byte other than those of line ends is among some bytes and those that came after them.
fn has_begun(before: bool, came: &[u8]) -> bool
    ensures { result ≡ (before || has_begun_in came.now) }
{
    before || is_begun(came)
}

/// Looks for a head in a buffer after more bytes came, and whether anything but line ends is there. Line ends alone are
/// no head, so empty lines that come one after another aren't read again for each of them.
pub(crate) fn look_again(
    buf: &[u8],
    seen: usize,
    before: bool,
) -> (bool, Result<Status<Head>, Fault>)
    requires { WasSeen buf.now seen before }
    ensures begun { result.0 ≡ has_begun_in buf.now }
    ensures found { LookFinds buf.now result.1 }
    ensures soon { has_begun_in buf.now ≡ true → FindsSoon buf.now seen result.1 }
{
    let begun = has_begun(before, &buf[seen..]);
    if begun {
        (begun, look_for_head(buf, seen))
    } else {
        (begun, without_head(buf))
    }
}

/// What bytes are that don't begin with a head: the start of one, or neither if they are too many.
fn without_head(buf: &[u8]) -> Result<Status<Head>, Fault>
    ensures { HasNoRequest buf.now → LookFinds buf.now result }
{
    if buf.len() < MAX_HEAD {
        Ok(Status::Partial)
    } else {
        Err(Fault::BadHead)
    }
}
