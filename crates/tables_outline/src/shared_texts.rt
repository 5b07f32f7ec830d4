//! Equal store paths that share one text.

ghost use Rattle.std.specs.Prelude.{◌≡◌, IfSome};

use crate::summary::Summary;
use paths::StorePath;
use std::collections::BTreeMap;

/// A clone of the path that equals `path`: `new`, or a key of `objects`. `None` if there is none, or the clone is
/// refused.
fn equal_path(
    path: &StorePath,
    new: &StorePath,
    objects: &BTreeMap<StorePath, Summary>,
) -> Option<StorePath>
    ensures { IfSome result (λ it. it ≡ path.now) }
{
    if path == new {
        return new.clone().ok();
    }
    let (key, _) = objects.get_key_value(path)?;
    key.clone().ok()
}

/// Lets a path share the text of an equal path, if there is one.
fn share_one(path: &mut StorePath, new: &StorePath, objects: &BTreeMap<StorePath, Summary>)
    ensures { path.new ≡ path.old }
{
    if let Some(equal) = equal_path(path, new, objects) {
        *path = equal;
    }
}

/// Lets each of some paths share the text of an equal path, `new` or a key of `objects`, if there is one.
pub(crate) fn share(
    paths: &mut [StorePath],
    new: &StorePath,
    objects: &BTreeMap<StorePath, Summary>,
)
    ensures { paths.new ≡ paths.old }
{
    for path in paths.iter_mut() {
        share_one(path, new, objects);
    }
}
