//! A string whose bytes are counted and not stored.

ghost use Rattle.std.specs.Prelude.{◌≡◌, ◌+◌, ◌-◌, ◌≤◌, ℕ, List, ◌++◌, length};

use crate::string::are_zeros;

/// How much of a string has come.
#[derive(Clone, Copy)]
pub struct Count {
    /// Where the string's text ends, and its padding begins.
    pub text: usize,
    /// Where the string ends.
    pub size: usize,
    /// How many bytes of the string have come.
    pub got: usize,
    /// Whether the padding so far is zero.
    pub is_clean: bool,
}

impl Count {
    ghost use Rattle.nar.specs.Feeding.{Counts};

    /// How many bytes are still to come.
    pub fn left(&self) -> usize
        ensures { result ≡ self.now.size - self.now.got }
    {
        self.size.saturating_sub(self.got)
    }

    /// Counts the next bytes, which are no more than are still to come.
    pub fn take(&mut self, bytes: &[u8])
        requires { length bytes.now ≤ self.old.size - self.old.got }
        ensures counts { (room : ℕ) (rest : List ℕ) → Counts self.old room rest
            → Counts self.new room (rest ++ bytes.now) }
        ensures got { self.new.got ≡ self.old.got + length bytes.now }
        ensures text { self.new.text ≡ self.old.text }
        ensures size { self.new.size ≡ self.old.size }
    {
        let text = self.text.saturating_sub(self.got).min(bytes.len());
        let is_clean = are_zeros(&bytes[text..]);
        self.is_clean = self.is_clean && is_clean;
        self.got += bytes.len();
    }
}
