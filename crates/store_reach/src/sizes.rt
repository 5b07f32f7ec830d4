//! The sizes of archives.

ghost use Rattle.std.specs.Prelude.{◌≡◌};
ghost use Rattle.model.specs.World.{World};
ghost use Rattle.tables_outline.specs.Outline.{outline_of};
ghost use Rattle.model.specs.Liveness as spec;
ghost use Rattle.store_reach.specs.Sizes.{bytes_within, size_in};

use paths::StorePath;
use tables_outline::Outline;

pub(crate) fn size_of(outline: &Outline, path: &StorePath) -> usize
    ensures { result ≡ size_in outline.now path.now }
{
    match outline.object(path) {
        Some(object) => object.size(),
        None => 0,
    }
}

fn sum_of(outline: &Outline, paths: &[StorePath]) -> u128
    ensures { result ≡ bytes_within outline.now paths.now }
{
    let mut bytes: u128 = 0;
    for path in paths {
        bytes += size_of(outline, path) as u128;
    }
    bytes
}

/// The bytes of the archives of some paths.
pub fn bytes_in(outline: &Outline, paths: &[StorePath]) -> u128
    ensures { (w : World) → outline_of w ≡ outline.now → result ≡ spec.bytes_in w paths.now }
{
    sum_of(outline, paths)
}
