//! Removal of objects, by a collection or a deletion.

ghost use Rattle.std.specs.Prelude.{◌≡◌, ◌<◌, IsTrue, true, false, [], length};
ghost use Rattle.policy.specs.Settings.{Settings};
ghost use Rattle.policy.specs.Caller.{Caller};
ghost use Rattle.model.specs.Disk.{touches_disk};
ghost use Rattle.model.specs.World.{World};
ghost use Rattle.model.specs.Sound.{IsSound};
ghost use Rattle.tables_outline.specs.Outline.{outline_of};
ghost use Rattle.tables_writes.specs.TablesValue.{HasWorld};
ghost use Rattle.store_promises.specs.Meets.{IsMet};
ghost use Rattle.store_reach.specs.Removal.{Removes, without};
ghost use Rattle.model.specs.Request as asked;

use paths::StorePath;
use sqlite::Alter;
use store_promises::answers::answered;
use store_types::{Answer, Stop};
use tables_writes::Tables;

/// Paths in order, and the sum of the bytes of their archives.
#[derive(Drop)]
pub struct Found {
    /// The paths.
    pub paths: Vec<StorePath>,
    /// The sum of the bytes.
    pub bytes: u128,
}

/// Whether the list of paths is empty.
fn is_nothing(paths: &[StorePath]) -> bool
    ensures none { result ≡ true → paths.now ≡ [] }
    ensures some { result ≡ false → 0 < length paths.now }
{
    paths.is_empty()
}

/// Removes the objects of some paths, which may be none. The caller ensures that the world is sound without the
/// objects.
pub(crate) fn remove<S: Alter>(tables: &mut Tables<S>, found: Found) -> Result<Answer, Stop>
    requires { (w : World) → HasWorld S.Store tables.old w → IsSound tables.old.dir (without w found.paths.items) }
    // A request is met that removes these objects and changes nothing else.
    ensures { (s : Settings) (c : Caller) (q : asked.Request) → IsTrue (touches_disk q)
        → ((w : World) → outline_of w ≡ tables.old.outline → Removes s w c q found.paths.items found.bytes)
        → IsMet S.Store s c q result tables.old tables.new }
{
    let Found { paths, bytes } = found;
    if is_nothing(&paths) {
        return Ok(Answer::Freed(paths, bytes));
    }
    answered(tables.remove_objects(&paths), Answer::Freed(paths, bytes))
}
