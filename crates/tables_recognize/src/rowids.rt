//! Whether each row of the store's tables has a rowid of its own, an integer: deletes depend on that.

ghost use Rattle.std.specs.Prelude.{◌≡◌, ◌↔◌, ◌⊎◌, IfOk, IfErr, IsTrue, length};
ghost use Rattle.std.specs.List.{AllAdjacentBelow, IsDistinct};
ghost use Rattle.std.specs.declared.cmp.Ordering.TheVariants.{Less};
ghost use Rattle.std.specs.Ordering.{eq_by_cmp, int_cmp};
ghost use Rattle.sqlite_value.specs.declared.value.Value.TheVariants.{Int};
ghost use Rattle.sqlite_value.specs.Order.{column};
ghost use Rattle.sqlite.specs.Values.{IsInt};
ghost use Rattle.tables_sql.specs.declared.failure.Failed.TheVariants.{Memory, Disk};

use sqlite::Row;
use tables_sql::failure::Failed;

/// The rowid that a row shows first. An error other than out of memory is `Disk`, whatever it is.
pub(crate) fn read_id(row: &Row) -> Result<i64, Failed>
    ensures shown { IfOk result (λ id. column row.now 0 ≡ Int id) }
    ensures cause { IfErr result (λ f. (f ≡ Memory) ⊎ ((f ≡ Disk) × ¬ IsInt (column row.now 0))) }
{
    match row.get(0) {
        Ok(id) => Ok(id),
        Err(error) => match Failed::from(error) {
            Failed::Memory => Err(Failed::Memory),
            _ => Err(Failed::Disk),
        },
    }
}

/// Whether each is above the one before it.
fn rise(ids: &[i64]) -> bool
    ensures { IsTrue result ↔ AllAdjacentBelow (λ x y. int_cmp x y ≡ Less) ids.now (length ids.now) }
{
    for at in 1..ids.len() {
        if ids[at - 1] >= ids[at] {
            return false;
        }
    }
    true
}

/// Whether no two are equal.
pub(crate) fn differ(mut ids: Vec<i64>) -> Result<bool, Failed>
    ensures differ { IfOk result (λ all. IsTrue all ↔ IsDistinct (eq_by_cmp int_cmp) ids.items) }
    ensures cause { IfErr result (λ f. f ≡ Memory) }
{
    ids.sort()?;
    Ok(rise(&ids))
}
