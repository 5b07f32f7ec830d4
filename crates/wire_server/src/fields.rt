//! What the fields of a head say.
ghost use Rattle.std.specs.Prelude.{◌≡◌, ◌≤◌, ◌==◌, ◌||◌, ℕ, List, [], ◌∷◌, ◌++◌, codes};
ghost use Rattle.std.specs.List.{list_any};
ghost use Rattle.std.specs.Str.{str_eq_ignore_ascii_case};
ghost use Rattle.httparse.specs.Spans.{IsRequestWithin};
ghost use Rattle.wire_server.specs.Fields.{Are, values, fields_at, stated, body_length};

use crate::error::Fault;
use crate::head::Head;

/// How many bytes a body has at most.
pub const MAX_BODY: usize = 20_971_520;

/// The values of the fields of a name.
#[derive(Clone, Copy)]
pub enum Values<'b> {
    None,
    One(&'b [u8]),
    More,
}

/// A head in the buffer that begins with it: its fields can be read.
#[derive(Clone, Copy)]
pub struct HeadFields<'b> {
    buf: &'b [u8],
    head: &'b Head,
    ghost within: { IsRequestWithin buf.now head.now.fields head.now.spans },
    ghost few: { head.now.spans.headers ≤ 64 },
}

impl<'b> HeadFields<'b> {
    /// A head that is in a buffer.
    pub fn new(buf: &'b [u8], head: &'b Head) -> HeadFields<'b>
        requires { IsRequestWithin buf.now head.now.fields head.now.spans }
        ensures buf { result.buf.now ≡ buf.now }
        ensures head { result.head.now ≡ head.now }
    {
        HeadFields { buf, head }
    }
}

/// The values of the fields of a name, without regard to ASCII case.
pub fn values_of<'b>(fields: &HeadFields<'b>, name: &[u8]) -> Values<'b>
    ensures { Are (values name.now (fields_at fields.now.buf.now fields.now.head.now)) result }
{
    let (buf, head) = (fields.buf, fields.head);
    let mut found = Values::None;
    for field in &head.fields[..head.spans.headers] {
        if field.name.of(buf).eq_ignore_ascii_case(name) {
            found = with_another(found, field.value.of(buf));
        }
    }
    found
}

/// The values, with another one appended.
fn with_another<'b>(found: Values<'b>, value: &'b [u8]) -> Values<'b>
    ensures { (vs : List (List ℕ)) → Are vs found.entry → Are (vs ++ value.now ∷ []) result }
{
    match found {
        Values::None => Values::One(value),
        _ => Values::More,
    }
}

/// The length that a value states.
fn stated_length(text: &[u8]) -> Result<usize, Fault>
    ensures { result ≡ stated text.now }
{
    let mut length = 0;
    for byte in text {
        if !byte.is_ascii_digit() {
            return Err(Fault::BadLength);
        }
        length = (length * 10 + (*byte - b'0') as usize).min(MAX_BODY + 1);
    }
    if text.is_empty() {
        return Err(Fault::BadLength);
    }
    if length > MAX_BODY {
        return Err(Fault::TooLarge);
    }
    Ok(length)
}

/// The length of the body that follows a head.
pub fn length_of_body(fields: &HeadFields<'_>) -> Result<usize, Fault>
    ensures { result ≡ body_length (fields_at fields.now.buf.now fields.now.head.now) }
{
    match values_of(fields, b"transfer-encoding") {
        Values::None => {}
        _ => return Err(Fault::BadLength),
    }
    match values_of(fields, b"content-length") {
        Values::None => Ok(0),
        Values::One(text) => stated_length(text),
        Values::More => Err(Fault::BadLength),
    }
}

/// Whether a field of this name has this value, both without regard to ASCII case.
fn has_value(fields: &HeadFields<'_>, name: &[u8], value: &[u8]) -> bool
    ensures { result ≡ list_any (λ v. str_eq_ignore_ascii_case v value.now)
        (values name.now (fields_at fields.now.buf.now fields.now.head.now)) }
{
    let (buf, head) = (fields.buf, fields.head);
    let mut found = false;
    for field in &head.fields[..head.spans.headers] {
        if field.name.of(buf).eq_ignore_ascii_case(name) {
            found = found || field.value.of(buf).eq_ignore_ascii_case(value);
        }
    }
    found
}

/// Whether the connection is closed after a message.
pub fn closes(fields: &HeadFields<'_>) -> bool
    ensures { result
        ≡ ((fields.now.head.now.spans.version == 0) || list_any (λ v. str_eq_ignore_ascii_case v (codes "close"))
        (values (codes "connection") (fields_at fields.now.buf.now fields.now.head.now))) }
{
    fields.head.spans.version == 0 || has_value(fields, b"connection", b"close")
}
