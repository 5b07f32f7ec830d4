//! Lists of numbers, one for each number.

ghost use Rattle.std.specs.Prelude.{◌≡◌, ◌<◌, ◌==◌, ◌&&◌, ◌||◌, filter, length, map, not, ℕ, OnOk};
ghost use Rattle.tables_outline.specs.LinkLists.{flag_at, has, list_at};

use crate::link_flags::Flags;
use std::alloc::{AllocError, Global};
use std::marker::Model;

/// For each number a list of numbers. Those beyond the last that is kept are empty.
#[derive(Drop)]
pub(crate) struct Lists {
    pub(crate) lists: Vec<Vec<u32>>,
}

impl Model for Lists {
    ghost use Rattle.std.specs.Prelude.{List, ℕ, map};

    ghost Value = { List (List ℕ) };

    ghost view = { λ l. map (λ v. v.items) l.lists.items };
}

/// Makes room for the list of a number.
fn make_room(alloc: Global, lists: &mut Vec<Vec<u32>>, number: u32) -> Result<(), AllocError>
    ensures room { OnOk result (number < length lists.new.items) }
    ensures same { OnOk result
        ((i : ℕ) → list_at (map (λ v. v.items) lists.new.items) i ≡ list_at (map (λ v. v.items) lists.old.items) i) }
{
    let wanted = number as usize + 1;
    for _count in lists.len()..wanted {
        lists.push(Vec::new(alloc))?;
    }
    Ok(())
}

/// Removes a number from a list. It takes no memory.
fn remove_from(list: &mut Vec<u32>, listed: u32)
    ensures { list.new.items ≡ filter (λ y. not (y == listed)) list.old.items }
{
    list.retain(|other| *other != listed);
}

/// Keeps the numbers of a list that have a flag. It takes no memory.
fn keep_flagged(list: &mut Vec<u32>, flags: &Flags)
    ensures { list.new.items ≡ filter (λ y. flag_at flags.now y) list.old.items }
{
    list.retain(|listed| flags.at(*listed as usize));
}

/// Keeps the numbers of all lists that have a flag. It takes no memory.
fn keep_all(lists: &mut Vec<Vec<u32>>, flags: &Flags)
    ensures { (i x : ℕ) → has (map (λ v. v.items) lists.new.items) i x
        ≡ (has (map (λ v. v.items) lists.old.items) i x && flag_at flags.now x) }
{
    for number in 0..lists.len() {
        keep_flagged(&mut lists[number], flags);
    }
}

impl Lists {
    /// The list of a number.
    pub(crate) fn at(&self, number: usize) -> &[u32]
        ensures { result.now ≡ list_at self.now number }
    {
        if number >= self.lists.len() {
            return &[];
        }
        self.lists[number].as_slice()
    }

    /// Lists a number with another.
    pub(crate) fn push(&mut self, alloc: Global, number: u32, listed: u32) -> Result<(), AllocError>
        ensures { OnOk result
            ((i x : ℕ) → has self.new i x ≡ (has self.old i x || (i == number && x == listed))) }
    {
        make_room(alloc, &mut self.lists, number)?;
        self.lists[number as usize].push(listed)?;
        Ok(())
    }

    /// Lists a number no longer with another. It takes no memory.
    pub(crate) fn forget(&mut self, number: u32, listed: u32)
        ensures { (i x : ℕ) → has self.new i x ≡ (has self.old i x && not (i == number && x == listed)) }
    {
        if number as usize >= self.lists.len() {
            return;
        }
        remove_from(&mut self.lists[number as usize], listed);
    }

    /// Keeps those of all lists that have a flag. It takes no memory.
    pub(crate) fn keep(&mut self, flags: &Flags)
        ensures { (i x : ℕ) → has self.new i x ≡ (has self.old i x && flag_at flags.now x) }
    {
        keep_all(&mut self.lists, flags);
    }
}
