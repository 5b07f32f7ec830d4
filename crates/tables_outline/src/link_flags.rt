//! Flags of numbers.

ghost use Rattle.std.specs.Prelude.{◌≡◌, ◌<◌, ◌==◌, ◌&&◌, ◌||◌, length, not, ℕ, OnOk};
ghost use Rattle.tables_outline.specs.LinkLists.{flag_at};

use std::alloc::AllocError;
use std::marker::Model;

/// For each number whether it has a flag. Those beyond the last that is kept have none.
#[derive(Drop)]
pub(crate) struct Flags {
    pub(crate) flags: Vec<bool>,
}

impl Model for Flags {
    ghost use Rattle.std.specs.Prelude.{Bool, List};

    ghost Value = { List Bool };

    ghost view = { λ f. f.flags.items };
}

/// Makes room for the flag of a number.
fn make_room(flags: &mut Vec<bool>, number: u32) -> Result<(), AllocError>
    ensures room { OnOk result (number < length flags.new.items) }
    ensures same { OnOk result ((i : ℕ) → flag_at flags.new.items i ≡ flag_at flags.old.items i) }
{
    let wanted = number as usize + 1;
    for _count in flags.len()..wanted {
        flags.push(false)?;
    }
    Ok(())
}

impl Flags {
    /// Whether a number has a flag.
    pub(crate) fn at(&self, number: usize) -> bool
        ensures { result ≡ flag_at self.now number }
    {
        if number >= self.flags.len() {
            return false;
        }
        self.flags[number]
    }

    /// Gives a number a flag.
    pub(crate) fn set(&mut self, number: u32) -> Result<(), AllocError>
        ensures { OnOk result ((i : ℕ) → flag_at self.new i ≡ (flag_at self.old i || i == number)) }
    {
        make_room(&mut self.flags, number)?;
        self.flags[number as usize] = true;
        Ok(())
    }

    /// Takes the flag of a number. It takes no memory.
    pub(crate) fn clear(&mut self, number: u32)
        ensures { (i : ℕ) → flag_at self.new i ≡ (flag_at self.old i && not (i == number)) }
    {
        if number as usize >= self.flags.len() {
            return;
        }
        self.flags[number as usize] = false;
    }
}
