//! The head of a reply.
ghost use Rattle.std.specs.Prelude.{◌≡◌, ◌++◌, OnOk, Some, None, option_map, string_bytes};
ghost use Rattle.wire_server.specs.ReplyHead.{reply_head, leading_lines, allow_field, close_field, last_lines};

use http::StatusCode;
use std::alloc::AllocError;

/// The values in the head of a reply.
#[derive(Clone, Copy)]
pub struct ReplyHead<'a> {
    pub status: StatusCode,
    /// The media type of the text.
    pub kind: &'a str,
    /// The methods of the route, if the method of the request is refused.
    pub allow: Option<&'a str>,
    /// Whether the connection is closed.
    pub close: bool,
    /// How many bytes the text has.
    pub size: usize,
}

/// Writes the status line, and the field with the media type of the text.
#[tactic(auto, unfolding(crate::specs::ReplyHead::leading_lines))]
fn write_start(out: &mut String, status: StatusCode, kind: &str) -> Result<(), AllocError>
    ensures { OnOk result (string_bytes out.new ≡ string_bytes out.old ++ leading_lines status kind.now) }
{
    write!(out, "HTTP/1.1 {status}\r\ncontent-type: {kind}\r\n")
}

/// Writes the field `allow`. `allow` lists the route's methods, for a refused method.
#[tactic(auto, unfolding(crate::specs::ReplyHead::allow_field))]
fn write_allow(out: &mut String, allow: Option<&str>) -> Result<(), AllocError>
    ensures { OnOk result (string_bytes out.new
        ≡ string_bytes out.old ++ allow_field (option_map (λ methods. methods.now) allow.entry)) }
{
    match allow {
        None => Ok(()),
        Some(methods) => write!(out, "allow: {methods}\r\n"),
    }
}

/// Writes the field `connection: close`, if the connection is closed.
#[tactic(auto, unfolding(crate::specs::ReplyHead::close_field))]
fn write_close(out: &mut String, close: bool) -> Result<(), AllocError>
    ensures { OnOk result (string_bytes out.new ≡ string_bytes out.old ++ close_field close) }
{
    if close {
        write!(out, "connection: close\r\n")
    } else {
        Ok(())
    }
}

/// Writes the field with the number of the text's bytes, and the empty line.
#[tactic(auto, unfolding(crate::specs::ReplyHead::last_lines))]
fn write_last(out: &mut String, size: usize) -> Result<(), AllocError>
    ensures { OnOk result (string_bytes out.new ≡ string_bytes out.old ++ last_lines size) }
{
    write!(out, "content-length: {size}\r\n\r\n")
}

/// Appends the head of a reply: a status line of HTTP/1.1, the fields, and an empty line, each with CR LF. If memory is
/// refused, a prefix of the head may have been appended.
pub fn write_reply_head(out: &mut String, head: &ReplyHead) -> Result<(), AllocError>
    ensures { OnOk result (string_bytes out.new ≡ string_bytes out.old
        ++ reply_head head.now.status head.now.kind.now (option_map (λ methods. methods.now) head.now.allow)
        head.now.close head.now.size) }
{
    write_start(out, head.status, head.kind)?;
    write_allow(out, head.allow)?;
    write_close(out, head.close)?;
    write_last(out, head.size)
}
