//! New tables in memory.

ghost use Rattle.std.specs.Prelude.{◌≡◌, IfErr, IfOk};
ghost use Rattle.sqlite.specs.Steps.{over_memory};
ghost use Rattle.model.specs.World.{no_world};
ghost use Rattle.tables_sql.specs.declared.failure.Failed.TheVariants.{Memory};
ghost use Rattle.tables_writes.specs.TablesValue.{HasWorld};

use paths::StoreDir;
use sqlite::{Connection, MemStore};
use std::alloc::Global;
use tables_make::new_tables;
use tables_outline::Outline;
use tables_sql::failure::Failed;
use tables_writes::{Tables, over};

/// The tables of a new, empty store in memory. Their connection has no limit on steps.
///
/// ```rust
/// use paths::StoreDir;
///
/// let tables = tables::open_in_memory(alloc, &StoreDir::parse(alloc, "/nix/store")?)?;
/// let is_empty = tables.outline().objects().is_empty();
/// drop(tables.release());
/// assert!(rt; is_empty);
/// ```
///
/// # Errors
///
/// Memory was refused.
pub fn open_in_memory(alloc: Global, dir: &StoreDir) -> Result<Tables<MemStore>, Failed>
    ensures dir { IfOk result (λ t. t.dir ≡ dir.now) }
    ensures reported { IfOk result (λ t. HasWorld over_memory t no_world) }
    // No later call fails since a query of it takes too many steps.
    ensures unlimited { IfOk result (λ t. t.connection.step_limit ≡ None) }
    // No disk is asked, and a store directory fits into a row.
    ensures cause { IfErr result (λ failure. failure ≡ Memory) }
{
    let kept = dir.clone()?;
    let mut connection = Connection::open_in_memory(alloc)?;
    new_tables::make(&mut connection, dir.as_str())?;
    let outline = Outline::new(alloc);
    Ok(over(alloc, connection, kept, outline))
}
