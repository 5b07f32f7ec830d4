//! The objects of an outline, with their links turned round.

ghost use Rattle.std.specs.Prelude.{◌≡◌, IfOk, IfSome, Option, None, if◌then◌else◌, not, option_map};
ghost use Rattle.std.specs.FinMap as finite;
ghost use Rattle.live.specs.Graph.{Links as PathLinks, holds};
ghost use Rattle.model.specs.World.{Path};
ghost use Rattle.tables_outline.specs.Links.{AreLinksOf};
ghost use Rattle.tables_outline.specs.Changes.{ChangesTo};
ghost use Rattle.tables_outline.specs.Maps.{put_all};
ghost use Rattle.tables_outline.specs.Turned.{AreTurned, links_of, objects_in};

use crate::links::Links;
use crate::summary::Summary;
use paths::StorePath;
use std::alloc::{AllocError, Global};
use std::collections::BTreeMap;
use std::marker::Model;

/// At most this many objects are removed from the links one by one. An object is found in the lists of what
/// it points to; those of many by reading all lists once.
const FEW: usize = 16;

/// Half of the numbers may exceed the objects by this many before the links are made anew.
const SPARE: usize = 4096;

/// Objects by their paths. Contracts see the map of them. Their links are kept turned round, or not: to have them takes
/// time and memory, and without them each question takes time for all objects.
#[derive(Drop)]
pub(crate) struct Objects {
    alloc: Global,
    map: BTreeMap<StorePath, Summary>,
    links: Option<Links>,
}

impl Model for Objects {
    ghost use Rattle.std.specs.FinMap as finite;
    ghost use Rattle.paths.specs.Root.{bytes_cmp};
    ghost use Rattle.tables_outline.specs.Outline.{Outlined, bytes_code, outlined_code};

    ghost Value = { finite.FinMap bytes_cmp Outlined };

    ghost coded = { finite.code bytes_code outlined_code };

    ghost use Rattle.tables_outline.specs.ObjectMap.{objects_view, are_turned};

    ghost view = { objects_view };

    ghost invariant = { are_turned };
}

/// The links of objects, turned round.
fn turned(alloc: Global, map: &BTreeMap<StorePath, Summary>) -> Result<Links, AllocError>
    ensures { IfOk result (AreLinksOf (links_of (objects_in map.now.entries))) }
{
    // Paths rise.
    let _count = map.len();
    let mut links = Links::new(alloc);
    for (path, object) in map.iter() {
        links = links.add(
            alloc,
            path,
            object.references(),
            object.outputs(),
            object.deriver(),
        )?;
    }
    Ok(links)
}

/// The links with those of a new object. `None` if there were none, if the object replaces another, or if memory is
/// refused.
fn with_object(
    alloc: Global,
    links: Option<Links>,
    map: &BTreeMap<StorePath, Summary>,
    path: &StorePath,
    object: &Summary,
) -> Option<Links>
    ensures { AreTurned (objects_in map.now.entries) links
        → AreTurned (finite.insert (objects_in map.now.entries) path.now object.now) result }
{
    let links = links?;
    if map.contains_key(path) {
        return None;
    }
    links
        .add(
            alloc,
            path,
            object.references(),
            object.outputs(),
            object.deriver(),
        )
        .ok()
}

/// The links without those of an object. It takes no memory.
fn without_object(
    links: Option<Links>,
    map: &BTreeMap<StorePath, Summary>,
    path: &StorePath,
) -> Option<Links>
    ensures { AreTurned (objects_in map.now.entries) links
        → AreTurned (finite.remove (objects_in map.now.entries) path.now) result }
{
    let mut links = links?;
    let Some(object) = map.get(path) else {
        return Some(links);
    };
    links.remove(
        path,
        object.references(),
        object.outputs(),
        object.deriver(),
    );
    Some(links)
}

/// The links without those of some objects. It takes no memory.
fn without_all(links: Option<Links>, paths: &[StorePath]) -> Option<Links>
    ensures { (object : Path → Option PathLinks) → IfSome links (AreLinksOf object)
        → IfSome result (AreLinksOf (λ p. if holds paths.now p then None else object p)) }
{
    let mut links = links?;
    links.remove_all(paths);
    Some(links)
}

/// Whether links have numbers of far more paths than there are objects.
fn are_worn(links: &Option<Links>, count: usize) -> bool {
    match links {
        Some(links) => links.len() / 2 > count.saturating_add(SPARE),
        None => false,
    }
}

/// The links, made anew if they are worn. `None` if there were none, or if memory is refused.
fn fresh(alloc: Global, links: Option<Links>, map: &BTreeMap<StorePath, Summary>) -> Option<Links>
    ensures { AreTurned (objects_in map.now.entries) links → AreTurned (objects_in map.now.entries) result }
{
    if !are_worn(&links, map.len()) {
        return links;
    }
    turned(alloc, map).ok()
}

impl Objects {
    /// No objects.
    pub(crate) fn new(alloc: Global) -> Objects
        ensures { result ≡ finite.empty }
    {
        Objects {
            alloc,
            map: BTreeMap::new(alloc),
            links: None,
        }
    }

    /// Whether this path is an object's.
    pub(crate) fn has(&self, path: &StorePath) -> bool
        ensures { result ≡ finite.contains_key self.now path.now }
    {
        self.map.contains_key(path)
    }

    /// The object of this path, if there is one.
    pub(crate) fn get(&self, path: &StorePath) -> Option<&Summary>
        ensures { option_map (λ o. o.now) result ≡ finite.get self.now path.now }
    {
        self.map.get(path)
    }

    /// All objects, in the order of their paths.
    pub(crate) fn all(&self) -> &BTreeMap<StorePath, Summary>
        ensures { result.now.entries ≡ finite.entries self.now }
    {
        // Paths rise.
        let _count = self.map.len();
        &self.map
    }

    /// The links of the objects, turned round, if they are kept.
    pub(crate) fn links(&self) -> Option<&Links>
        ensures { IfSome result (λ l. AreLinksOf (links_of self.now) l.now) }
    {
        self.links.as_ref()
    }

    /// Keeps the links turned round from now on. If memory is refused, they aren't kept.
    pub(crate) fn turn(&mut self)
        ensures { self.new ≡ self.old }
    {
        if self.links.is_some() {
            return;
        }
        self.links = turned(self.alloc, &self.map).ok();
    }

    /// Puts an object. Each reference to it or to an object shares the text of that path. If memory is refused, nothing
    /// changes, but links may no longer be kept.
    pub(crate) fn insert(&mut self, path: StorePath, object: Summary) -> Result<(), AllocError>
        ensures { ChangesTo self.old self.new result (finite.insert self.old path object) }
    {
        let mut object = object;
        object.share_references(&path, &self.map);
        let links = fresh(self.alloc, self.links.take(), &self.map);
        let links = with_object(self.alloc, links, &self.map, &path, &object);
        self.map.insert(path, object)?;
        self.links = links;
        Ok(())
    }

    /// Replaces all objects by these. Their links aren't kept. If memory is refused, nothing changes.
    pub(crate) fn set(
        &mut self,
        alloc: Global,
        objects: Vec<(StorePath, Summary)>,
    ) -> Result<(), AllocError>
        ensures { ChangesTo self.old self.new result (put_all objects.items finite.empty) }
    {
        let made = objects.into_iter().collect(alloc)?;
        self.links = None;
        self.map = made;
        Ok(())
    }

    /// Removes an object, if it exists. It takes no memory.
    pub(crate) fn remove(&mut self, path: &StorePath)
        ensures { self.new ≡ finite.remove self.old path.now }
    {
        let links = without_object(self.links.take(), &self.map, path);
        self.map.remove(path);
        self.links = links;
    }

    /// Removes some objects, one after another. It takes no memory.
    fn remove_each(&mut self, paths: &[StorePath])
        ensures { self.new ≡ finite.retain_keys self.old (λ p. not (holds paths.now p)) }
    {
        for path in paths {
            self.remove(path);
        }
    }

    /// Removes some objects, and reads all links once if these are many. It takes no memory.
    pub(crate) fn remove_all(&mut self, paths: &[StorePath])
        ensures { self.new ≡ finite.retain_keys self.old (λ p. not (holds paths.now p)) }
    {
        if paths.len() <= FEW {
            return self.remove_each(paths);
        }
        let links = self.links.take();
        self.remove_each(paths);
        self.links = without_all(links, paths);
    }
}
