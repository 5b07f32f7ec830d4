//! Adds.

ghost use Rattle.std.specs.Prelude.{◌≡◌};
ghost use Rattle.policy.specs.Caller.{Caller};
ghost use Rattle.model.specs.World.{World};
ghost use Rattle.model.specs.Sound.{IsSound};
ghost use Rattle.model.specs.Request as asked;
ghost use Rattle.model.specs.Effects.{with_object};
ghost use Rattle.tables_writes.specs.TablesValue.{HasWorld};
ghost use Rattle.store_adds.specs.Parts.{added_view};
ghost use Rattle.store_adds.specs.Additions.{IsAdded};
ghost use Rattle.store_promises.specs.Meets.{IsMet};

use crate::summaries::Added;
use crate::texts::prepare_text;
use paths::{Name, StorePath};
use policy::{Config, store_dir};
use sqlite::Alter;
use std::alloc::Global;
use store_types::{Answer, Stop};
use tables_writes::Tables;

/// Adds an object at its path, unless the path is valid already. The answer is the path.
pub fn add<S: Alter>(tables: &mut Tables<S>, added: Added) -> Result<Answer, Stop>
    requires { (w : World) → HasWorld S.Store tables.old w
        → IsSound tables.old.dir (with_object w (added_view added)) }
    ensures { IsAdded S.Store (added_view added) result tables.old tables.new }
{
    let Added { path, nar, object } = added;
    if tables.outline().has(&path) {
        return Ok(Answer::Path(path));
    }
    tables.insert_object(&path, &nar, object)?;
    Ok(Answer::Path(path))
}

/// Adds a text object. The answer is its path.
pub fn add_text<S: Alter>(
    alloc: Global,
    config: &Config,
    tables: &mut Tables<S>,
    name: Name,
    refs: Vec<StorePath>,
    contents: Vec<u8>,
) -> Result<Answer, Stop>
    requires dir { tables.old.dir ≡ config.now.store_dir }
    ensures { (c : Caller)
        → IsMet S.Store config.now c (asked.add_text name refs.items contents.items) result tables.old tables.new }
{
    // A store name is a text.
    let _text = name.as_str();
    let dir = store_dir(config);
    let added = prepare_text(alloc, dir, tables.outline(), &name, refs, &contents)?;
    add(tables, added)
}
