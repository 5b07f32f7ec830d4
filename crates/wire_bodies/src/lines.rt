//! The lines of a body: a key and a value each.
ghost use Rattle.std.specs.Prelude.{◌≡◌};
ghost use Rattle.wire_bodies.specs.Lines.{FirstLine, EntryOf, Passes};

use std::marker::Model;
use std::str;

/// The first line of a text, and what follows its line feed.
pub(crate) fn first_line<'b>(text: &'b [u8]) -> Option<(&'b [u8], &'b [u8])>
    ensures { FirstLine text.now result }
{
    for (i, byte) in text.iter().enumerate() {
        if *byte == b'\n' {
            return Some((&text[..i], &text[i + 1..]));
        }
    }
    None
}

/// The key and the value of a line.
pub(crate) fn entry_of<'b>(line: &'b [u8]) -> Option<(&'b str, &'b str)>
    ensures { EntryOf line.now result }
{
    let Ok(text) = str::from_utf8(line) else {
        return None;
    };
    let Some((key, rest)) = text.split_once(':') else {
        return None;
    };
    match rest.strip_prefix(' ') {
        Some(value) => Some((key, value)),
        None => None,
    }
}

/// The lines of a body, each with a key and a value, borrowed from the body: no list of them is made. Contracts see the
/// keys and values in their order.
#[derive(Drop)]
pub struct Lines<'b> {
    pub(crate) text: &'b [u8],
}

impl<'b> Model for Lines<'b> {
    ghost use Rattle.std.specs.Prelude.{List};
    ghost use Rattle.wire_bodies.specs.Lines.{Entry, AreLines, entries_in};

    ghost Value = { List Entry };

    ghost view = { λ lines. entries_in lines.text.now };

    ghost invariant = { λ lines. AreLines lines.text.now (entries_in lines.text.now) };
}

impl<'b> Lines<'b> {
    /// A second walk over these lines.
    pub fn again(&self) -> Lines<'b>
        ensures { result ≡ self.now }
    {
        Lines { text: self.text }
    }

    /// The key and the value of the first line. The lines then begin after it. `None` if no line is left.
    pub fn take_entry(&mut self) -> Option<(&'b str, &'b str)>
        ensures { Passes self.old self.new result }
    {
        let Some((line, after)) = first_line(self.text) else {
            return None;
        };
        let Some(entry) = entry_of(line) else {
            return None;
        };
        self.text = after;
        Some(entry)
    }
}
