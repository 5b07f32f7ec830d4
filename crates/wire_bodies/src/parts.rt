//! The lines of a body, and its payload.
ghost use Rattle.wire_bodies.specs.Lines.{spelled};
ghost use Rattle.wire_bodies.specs.Parts.{BodyOf};

use crate::lines::{Lines, entry_of, first_line};

/// The keys and values of a body, and what follows its empty line.
#[derive(Drop)]
pub struct Body<'b> {
    pub entries: Lines<'b>,
    pub payload: &'b [u8],
}

/// The entries and the payload of a text that isn't empty.
fn parts_of<'b>(text: &'b [u8]) -> Option<Body<'b>>
    ensures { BodyOf text.now result }
{
    let mut rest = text;
    'lines: loop {
        let Some((line, after)) = first_line(rest) else {
            return None;
        };
        if line.is_empty() {
            let (lines, _) = text.split_at(text.len() - rest.len());
            return Some(Body {
                entries: Lines { text: lines },
                payload: after,
            });
        }
        let Some(_) = entry_of(line) else {
            return None;
        };
        rest = after;
    }
}

/// The entries and the payload of a body, borrowed. `None` if the body has no empty line after well-formed lines. What
/// follows the empty line isn't examined, so a prefix of a body gives the same entries as soon as it has the empty
/// line. Takes no memory.
pub fn body_of<'b>(body: &'b [u8]) -> Option<Body<'b>>
    ensures { BodyOf (spelled body.now) result }
{
    if body.is_empty() {
        return Some(Body {
            entries: Lines { text: body },
            payload: body,
        });
    }
    parts_of(body)
}
