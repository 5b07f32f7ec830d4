//! The outputs of objects, as lists.

ghost use Rattle.std.specs.Prelude.{IfOk, map, string_bytes};
ghost use Rattle.std.specs.FinMap as finite;
ghost use Rattle.drv.specs.View.{pairs};
ghost use Rattle.tables_outline.specs.Outputs.{IsListed};

use paths::StorePath;
use std::alloc::{AllocError, Global};
use std::collections::BTreeMap;

/// Outputs in the order of their names: `paths[i]` belongs to `names[i]`.
#[derive(Drop)]
pub struct Outputs {
    /// The names, in order.
    pub names: Vec<String>,
    /// The paths, in the order of the names.
    pub paths: Vec<StorePath>,
}

impl Outputs {
    /// The outputs of a map, by name. The only error is that memory was refused.
    pub fn of_map(
        alloc: Global,
        outputs: BTreeMap<String, StorePath>,
    ) -> Result<Outputs, AllocError>
        ensures { IfOk result
            (λ o. IsListed (map string_bytes o.names.items) o.paths.items
            (finite.from_entries (pairs outputs.entries))) }
    {
        let mut names = Vec::new(alloc);
        let mut paths = Vec::new(alloc);
        for (name, path) in outputs {
            names.push(name)?;
            paths.push(path)?;
        }
        Ok(Outputs { names, paths })
    }
}
