//! The outline: the outline of a world, in memory.

ghost use Rattle.std.specs.Prelude.{◌≡◌};
ghost use Rattle.model.specs.World.{no_world};
ghost use Rattle.tables_outline.specs.Outline.{outline_of};

use crate::object_map::Objects;
use crate::profiles::Profile;
use paths::StorePath;
use std::alloc::Global;
use std::collections::{BTreeMap, BTreeSet};
use std::marker::Model;

/// All that the tables hold of a world but the bytes of archives.
#[derive(Drop)]
pub struct Outline {
    pub(crate) objects: Objects,
    pub(crate) permanent: BTreeMap<String, StorePath>,
    pub(crate) user_roots: BTreeMap<(String, String), StorePath>,
    pub(crate) profiles: BTreeMap<(String, String), Profile>,
    pub(crate) runtime: BTreeSet<(String, StorePath)>,
    pub(crate) temporary: BTreeSet<(String, u32, StorePath)>,
}

impl Model for Outline {
    ghost use Rattle.tables_outline.specs.Outline.{OutlineValue, outline_code};

    ghost Value = { OutlineValue };

    ghost coded = { outline_code };

    ghost use Rattle.tables_outline.specs.View.{outline_view};

    ghost view = { outline_view };
}

impl Outline {
    /// The outline of a world without anything.
    pub fn new(alloc: Global) -> Outline
        ensures { result ≡ outline_of no_world }
    {
        let objects = Objects::new(alloc);
        let permanent = BTreeMap::new(alloc);
        let user_roots = BTreeMap::new(alloc);
        let profiles = BTreeMap::new(alloc);
        let runtime = BTreeSet::new(alloc);
        let temporary = BTreeSet::new(alloc);
        Outline {
            objects,
            permanent,
            user_roots,
            profiles,
            runtime,
            temporary,
        }
    }
}
