//! Where in an archive a checker is.

ghost use Rattle.std.specs.Prelude.{◌≡◌, ◌≢◌, ◌+◌, ℕ, List, [], length, cond, codes, nat_lt, Ok, Err, OnOk, IfErr};
ghost use Rattle.std.specs.Prelude.{Option, IsTrue, ◌↔◌};
ghost use Rattle.std.specs.Str.{bytes_eq};
ghost use Rattle.std.specs.Option.{option_copied};
ghost use Rattle.nar.specs.declared.error.NarError.TheVariants.{BadTag, TooDeep};
ghost use Rattle.nar.specs.declared.nest.Phase.TheVariants as phases;
ghost use Rattle.nar.specs.Nest.{symbols, Continues, next, AwaitsKeyword};

use crate::error::NarError;
use crate::name::{is_above, is_name};
use crate::words::{
    CLOSE, CONTENTS, DIRECTORY, ENTRY, EXECUTABLE, MAGIC, NAME, NODE, NOTHING, OPEN, REGULAR,
    SYMLINK, TARGET, TYPE,
};
use std::alloc::Global;

/// What comes next.
#[derive(Clone, Copy)]
pub enum Phase {
    Magic,
    Open,
    Type,
    Kind,
    File,
    Empty,
    Contents,
    Target,
    Data,
    Close,
    Entries,
    EntryOpen,
    NameWord,
    Name,
    NodeWord,
    Under,
}

fn word_phase(text: &[u8], word: &[u8], then: Phase) -> Result<Phase, NarError>
    ensures { result ≡ cond (bytes_eq text.now word.now) (Ok then) (Err BadTag) }
{
    if text == word {
        Ok(then)
    } else {
        Err(NarError::BadTag)
    }
}

fn kind_phase(text: &[u8]) -> Result<Phase, NarError>
    ensures { result
        ≡ cond (bytes_eq text.now (codes "regular")) (Ok phases.File)
        (cond (bytes_eq text.now (codes "symlink")) (Ok phases.Target)
        (cond (bytes_eq text.now (codes "directory")) (Ok phases.Entries) (Err BadTag))) }
{
    if text == REGULAR {
        return Ok(Phase::File);
    }
    if text == SYMLINK {
        return Ok(Phase::Target);
    }
    if text == DIRECTORY {
        return Ok(Phase::Entries);
    }
    Err(NarError::BadTag)
}

fn file_phase(text: &[u8]) -> Result<Phase, NarError>
    ensures { result
        ≡ cond (bytes_eq text.now (codes "executable")) (Ok phases.Empty)
        (cond (bytes_eq text.now (codes "contents")) (Ok phases.Data) (Err BadTag)) }
{
    if text == EXECUTABLE {
        return Ok(Phase::Empty);
    }
    if text == CONTENTS {
        return Ok(Phase::Data);
    }
    Err(NarError::BadTag)
}

fn entries_phase(text: &[u8]) -> Result<Phase, NarError>
    ensures { result ≡ cond (bytes_eq text.now (codes ")")) (Ok phases.Under)
        (cond (bytes_eq text.now (codes "entry")) (Ok phases.EntryOpen) (Err BadTag)) }
{
    if text == CLOSE {
        return Ok(Phase::Under);
    }
    if text == ENTRY {
        return Ok(Phase::EntryOpen);
    }
    Err(NarError::BadTag)
}

fn node_phase(text: &[u8], depth: usize) -> Result<Phase, NarError>
    ensures { result
        ≡ cond (bytes_eq text.now (codes "node")) (cond (nat_lt 256 depth) (Err TooDeep) (Ok phases.Open))
        (Err BadTag) }
{
    if text != NODE {
        return Err(NarError::BadTag);
    }
    if depth > 256 {
        return Err(NarError::TooDeep);
    }
    Ok(Phase::Open)
}

/// What comes after the string, where neither a name is entered nor left.
fn next_phase(phase: Phase, depth: usize, text: &[u8]) -> Result<Phase, NarError>
    requires { AwaitsKeyword phase }
    ensures { (last : Option (List ℕ)) (names : List (List ℕ)) → length names + 1 ≡ depth
        → Continues (next (symbols phase last names) text.now) result last names }
{
    match phase {
        Phase::Magic => word_phase(text, MAGIC, Phase::Open),
        Phase::Open => word_phase(text, OPEN, Phase::Type),
        Phase::Type => word_phase(text, TYPE, Phase::Kind),
        Phase::File => file_phase(text),
        Phase::Empty => word_phase(text, NOTHING, Phase::Contents),
        Phase::Contents => word_phase(text, CONTENTS, Phase::Data),
        Phase::Target => word_phase(text, TARGET, Phase::Data),
        Phase::Data => Ok(Phase::Close),
        Phase::Close => word_phase(text, CLOSE, Phase::Under),
        Phase::Entries => entries_phase(text),
        Phase::EntryOpen => word_phase(text, OPEN, Phase::NameWord),
        Phase::NameWord => word_phase(text, NAME, Phase::Name),
        Phase::NodeWord => node_phase(text, depth),
        Phase::Kind | Phase::Name | Phase::Under => unreachable!(),
    }
}

/// The open nodes of an archive, without recursion.
#[derive(Drop)]
pub struct Nest {
    phase: Phase,
    last: Option<Vec<u8>>,
    names: Vec<Vec<u8>>,
}

impl Nest {
    ghost use Rattle.nar.specs.NestView.{symbols_of, counts_at, Takes};
    ghost use Rattle.nar.specs.Steps.{start};

    pub fn new(alloc: Global) -> Nest
        ensures { symbols_of result ≡ start }
    {
        Nest {
            phase: Phase::Magic,
            last: None,
            names: Vec::new(alloc),
        }
    }

    /// Whether the archive is whole.
    pub fn is_done(&self) -> bool
        ensures { IsTrue result ↔ (symbols_of self.now ≡ []) }
    {
        match self.phase {
            Phase::Under => self.names.is_empty(),
            _ => false,
        }
    }

    fn accept_name(&mut self, alloc: Global, text: &[u8]) -> Result<(), NarError>
        requires { self.old.phase ≡ phases.Name }
        ensures { Takes self.old self.new text.now result }
    {
        if !is_name(text) {
            return Err(NarError::BadName);
        }
        let last = match &self.last {
            None => None,
            Some(last) => Some(last.as_slice()),
        };
        if !is_above(last, text) {
            return Err(NarError::NotSorted);
        }
        let name = Vec::from_slice(alloc, text)?;
        self.names.push(name)?;
        self.last = None;
        self.phase = Phase::NodeWord;
        Ok(())
    }

    fn leave(&mut self, text: &[u8]) -> Result<(), NarError>
        requires phase { self.old.phase ≡ phases.Under }
        requires some { symbols_of self.old ≢ [] }
        ensures { Takes self.old self.new text.now result }
    {
        if text != CLOSE {
            return Err(NarError::BadTag);
        }
        self.last = self.names.pop();
        self.phase = Phase::Entries;
        Ok(())
    }

    /// Whether a string of this length is counted there and not stored: contents and targets, and what is longer than
    /// each of the fixed strings.
    pub fn is_counted(&self, len: usize) -> bool
        ensures { result ≡ counts_at self.now len }
    {
        match self.phase {
            Phase::Data => true,
            Phase::Name => false,
            _ => len > 13,
        }
    }

    /// Takes a string of this length whose bytes were counted and not stored.
    pub fn skip(&mut self, len: usize) -> Result<(), NarError>
        ensures ok { OnOk result ((s : List ℕ) → length s ≡ len → IsTrue (counts_at self.old len)
            → next (symbols_of self.old) s ≡ Ok (symbols_of self.new)) }
        ensures err { IfErr result
            (λ e. (s : List ℕ) → length s ≡ len → IsTrue (counts_at self.old len) → symbols_of self.old ≢ []
            → next (symbols_of self.old) s ≡ Err e) }
    {
        match self.phase {
            Phase::Data => {
                self.phase = Phase::Close;
                Ok(())
            }
            _ => Err(NarError::BadTag),
        }
    }

    /// Takes the next string.
    pub fn step(&mut self, alloc: Global, text: &[u8]) -> Result<(), NarError>
        requires { symbols_of self.old ≢ [] }
        ensures { Takes self.old self.new text.now result }
    {
        match self.phase {
            Phase::Name => self.accept_name(alloc, text),
            Phase::Under => self.leave(text),
            Phase::Kind => {
                self.phase = kind_phase(text)?;
                self.last = None;
                Ok(())
            }
            phase => {
                let depth = self.names.len() + 1;
                self.phase = next_phase(phase, depth, text)?;
                Ok(())
            }
        }
    }
}
