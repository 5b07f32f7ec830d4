//! Entries of a table, as the rows of an answer show them.

ghost use Rattle.std.specs.Prelude.{◌≡◌, ◌≢◌, ◌⊎◌, ◌↔◌, IfOk, IfErr, IsTrue, List, Bool, true, length};
ghost use Rattle.std.specs.List.{AllByRecursion, AllZip, AllAdjacentBelow};
ghost use Rattle.sqlite_value.specs.declared.value.Value.{Value};
ghost use Rattle.tables_sql.specs.declared.failure.Failed.TheVariants.{Memory, Disk};
ghost use Rattle.tables_sql.specs.Reading.{IsAmiss};

use crate::failure::Failed;
use crate::query::Sink;
use sqlite::Row;

/// An entry of a table, which a row shows by its columns.
pub trait Entry: Sized + Drop {
    // The columns of a row that shows it.
    ghost is_shown: { List Value → Self → Type 0 };

    // Whether a row can be read as one.
    ghost is_legible: { List Value → Type 0 };

    // Whether its key is below the other's.
    ghost is_below: { Self → Self → Bool };

    fn read(row: &Row) -> Result<Self, Failed>
        ensures shown { IfOk result (is_shown row.now) }
        ensures illegible { IfErr result (λ f. f ≢ Memory → ¬ is_legible row.now) };

    fn is_below(&self, other: &Self) -> bool
        ensures { result ≡ is_below self.now other.now };
}

/// A key alone.
impl Entry for String {
    ghost use Rattle.std.specs.Prelude.{string_bytes};
    ghost use Rattle.std.specs.Ordering.{is_lt};
    ghost use Rattle.tables_sql.specs.Contents.{texts_cmp};
    ghost use Rattle.tables_sql.specs.Reading.{ShowsText, IsTextRow};

    ghost is_shown = { ShowsText };

    ghost is_legible = { IsTextRow };

    ghost is_below = { λ a b. is_lt (texts_cmp (string_bytes a) (string_bytes b)) };

    fn read(row: &Row) -> Result<String, Failed> {
        Ok(row.get(0)?)
    }

    fn is_below(&self, other: &String) -> bool {
        *self < *other
    }
}

/// A row that isn't as its table has them is `Disk`.
fn read<T: Entry>(row: &Row) -> Result<T, Failed>
    ensures shown { IfOk result (T.is_shown row.now) }
    ensures illegible { IfErr result (λ f. (f ≡ Memory) ⊎ ((f ≡ Disk) × (¬ T.is_legible row.now))) }
{
    match T::read(row) {
        Ok(entry) => Ok(entry),
        Err(Failed::Memory) => Err(Failed::Memory),
        Err(_) => Err(Failed::Disk),
    }
}

/// The entries that the rows show, which rise.
impl<T: Entry> Sink for Vec<T> {
    ghost is_of = { λ rows all. AllZip T.is_shown rows all.items
        × AllAdjacentBelow (λ x y. true ≡ T.is_below x y) all.items (length all.items) };

    ghost is_amiss = { IsAmiss T.is_legible T.is_shown T.is_below };

    fn take(&mut self, row: &Row) -> Result<(), Failed> {
        let entry: T = read(row)?;
        if let Some(last) = self.last() {
            if !last.is_below(&entry) {
                return Err(Failed::Disk);
            }
        }
        self.push(entry)?;
        Ok(())
    }
}
