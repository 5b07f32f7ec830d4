//! Objects in an outline.

ghost use Rattle.std.specs.Prelude.{◌≡◌, IfSome, not, option_map};
ghost use Rattle.std.specs.FinMap as finite;
ghost use Rattle.tables_outline.specs.Changes.{ChangesTo};
ghost use Rattle.live.specs.Graph.{holds};
ghost use Rattle.tables_outline.specs.Links.{AreLinksOf};
ghost use Rattle.tables_outline.specs.Maps.{put_all};
ghost use Rattle.tables_outline.specs.Turned.{links_of};

use crate::links::Links;
use crate::outline::Outline;
use crate::summary::Summary;
use paths::StorePath;
use std::alloc::{AllocError, Global};
use std::collections::BTreeMap;

impl Outline {
    /// Whether this path is an object's.
    ///
    /// ```rust
    /// assert!(rt; tables.outline().has(path));
    /// ```
    pub fn has(&self, path: &StorePath) -> bool
        ensures { result ≡ finite.contains_key self.now.objects path.now }
    {
        self.objects.has(path)
    }

    /// The object of this path, if there is one.
    ///
    /// ```rust
    /// assert_eq!(rt; tables.outline().object(path).map(|object| object.size()), Some(128));
    /// ```
    pub fn object(&self, path: &StorePath) -> Option<&Summary>
        ensures { option_map (λ o. o.now) result ≡ finite.get self.now.objects path.now }
    {
        self.objects.get(path)
    }

    /// All objects, borrowed, in the order of their paths.
    ///
    /// ```rust
    /// for (path, object) in tables.outline().objects() {
    ///     assert_eq!(rt; path.name(), "myfile");
    ///     assert_eq!(rt; object.size(), 128);
    /// }
    /// ```
    pub fn objects(&self) -> &BTreeMap<StorePath, Summary>
        ensures { result.now.entries ≡ finite.entries self.now.objects }
    {
        self.objects.all()
    }

    /// Puts an object. Each reference to it or to an object of the index shares the text of that path, so that an
    /// index of many objects is small. If memory is refused, nothing changes.
    pub fn insert_object(&mut self, path: StorePath, object: Summary) -> Result<(), AllocError>
        ensures { ChangesTo self.old self.new result
            (record self.old { objects = finite.insert self.old.objects path object }) }
    {
        self.objects.insert(path, object)
    }

    /// Replaces all objects by these. One tree of all of them has full nodes where paths rise, and takes half the
    /// memory of as many inserts. If memory is refused, nothing changes.
    pub fn set_objects(
        &mut self,
        alloc: Global,
        objects: Vec<(StorePath, Summary)>,
    ) -> Result<(), AllocError>
        ensures { ChangesTo self.old self.new result
            (record self.old { objects = put_all objects.items finite.empty }) }
    {
        self.objects.set(alloc, objects)
    }

    /// Removes an object, if it exists. Allocates no memory.
    pub fn remove_object(&mut self, path: &StorePath)
        ensures { self.new ≡ record self.old { objects = finite.remove self.old.objects path.now } }
    {
        self.objects.remove(path);
    }

    /// Removes some objects, those that exist. It takes no memory.
    pub fn remove_objects(&mut self, paths: &[StorePath])
        ensures { self.new
            ≡ record self.old { objects = finite.retain_keys self.old.objects (λ p. not (holds paths.now p)) } }
    {
        self.objects.remove_all(paths);
    }

    /// The links of the objects, turned round. `None` if they aren't kept.
    pub fn links(&self) -> Option<&Links>
        ensures { IfSome result (λ links. AreLinksOf (links_of self.now.objects) links.now) }
    {
        self.objects.links()
    }

    /// Keeps the links of the objects turned round from now on, through all changes. If memory is refused, now or
    /// later, they are no longer kept.
    pub fn turn_links(&mut self)
        ensures { self.new ≡ self.old }
    {
        self.objects.turn();
    }
}
