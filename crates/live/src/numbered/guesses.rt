//! Guesses of the places of paths among rows, made for all paths before the first text is compared: the searches and
//! the comparisons each wait for memory, and apart from one another they wait less. No clause is about a guess, since
//! the texts are compared anyway: a wrong guess costs only time.

use crate::numbered::heads::head_of;
use crate::numbered::rows::Row;
use paths::StorePath;
use std::alloc::{AllocError, Global};

/// How many slots there are for each row, so that most rows have one alone.
const SLOTS: usize = 4;

/// An odd number without pattern.
const SCATTER: u64 = 0x9e37_79b9_7f4a_7c15;

/// The slot of a head, among `slots`, below 2 ^ 32. Heads scatter over the slots.
fn slot_of(head: u64, slots: usize) -> usize {
    ((head.wrapping_mul(SCATTER) >> 32).wrapping_mul(slots as u64) >> 32) as usize
}

/// For each slot the place of a row whose head falls there, the last of them.
fn hints_of(alloc: Global, heads: &[u64]) -> Result<Vec<u32>, AllocError> {
    let slots = heads.len().wrapping_mul(SLOTS);
    let mut hints = vec![in alloc; 0u32; slots]?;
    for place in 0..heads.len() {
        let slot = slot_of(heads[place], slots);
        if let Ok(hint) = u32::try_from(place) {
            if slot < hints.len() {
                hints[slot] = hint;
            }
        }
    }
    Ok(hints)
}

/// Where a path may be: at the hint, if its head is there, or else where a search by heads ends.
fn guess(heads: &[u64], hints: &[u32], path: &StorePath) -> usize {
    let head = head_of(path);
    let slot = slot_of(head, hints.len());
    if slot < hints.len() {
        let place = hints[slot] as usize;
        if place < heads.len() && heads[place] == head {
            return place;
        }
    }
    heads.partition_point(|other| *other < head)
}

/// A guess for each of some paths goes to the end of the list.
fn add_guesses(
    guesses: &mut Vec<usize>,
    heads: &[u64],
    hints: &[u32],
    paths: &[StorePath],
) -> Result<(), AllocError> {
    for path in paths {
        guesses.push(guess(heads, hints, path))?;
    }
    Ok(())
}

/// Guesses that are used in the order in which they were made.
#[derive(Drop)]
pub(crate) struct Guesses {
    places: Vec<usize>,
    used: usize,
}

impl Guesses {
    /// A guess for each path that rows point to: row after row, its references, its outputs, its deriver.
    pub(crate) fn new(alloc: Global, rows: &[Row], heads: &[u64]) -> Result<Guesses, AllocError> {
        let hints = hints_of(alloc, heads)?;
        let mut places = Vec::new(alloc);
        for row in rows {
            add_guesses(&mut places, heads, &hints, row.references)?;
            add_guesses(&mut places, heads, &hints, row.outputs)?;
            if let Some(path) = row.deriver {
                places.push(guess(heads, &hints, path))?;
            }
        }
        Ok(Guesses { places, used: 0 })
    }

    /// The next guess.
    pub(crate) fn next(&mut self) -> usize {
        let used = self.used;
        self.used = used.saturating_add(1);
        if used < self.places.len() {
            self.places[used]
        } else {
            0
        }
    }
}
