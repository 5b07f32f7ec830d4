//! The links of objects, turned round.

ghost use Rattle.std.specs.Prelude.{◌≡◌, ◌<◌, true, false, length, option_map, IfOk, IfSome, IfNone};
ghost use Rattle.live.specs.Numbering.{place_of};
ghost use Rattle.tables_outline.specs.LinkNames.{name_at};
ghost use Rattle.tables_outline.specs.Links.{AreRemoved, IsAdded, IsRemoved, is_held, no_links};

use crate::link_flags::Flags;
use crate::link_lists::Lists;
use crate::link_names::Names;
use crate::source_links::{clear_all, link_all, link_if, unlink_all, unlink_if};
use paths::StorePath;
use std::alloc::{AllocError, Global};
use std::collections::BTreeMap;
use std::marker::Model;

/// For each path the objects that point to it. Each path that was ever named has a number, which it keeps. Contracts
/// see the paths by their numbers, and for each the numbers of its sources.
#[derive(Drop)]
pub struct Links {
    pub(crate) names: Names,
    pub(crate) held: Flags,
    pub(crate) by_reference: Lists,
    pub(crate) by_output: Lists,
    pub(crate) by_deriver: Lists,
}

impl Model for Links {
    ghost use Rattle.tables_outline.specs.Links.{LinksValue};

    ghost Value = { LinksValue };

    ghost use Rattle.tables_outline.specs.LinksView.{are_sound, links_view};

    ghost view = { links_view };

    ghost invariant = { are_sound };
}

impl Links {
    /// The links of no objects.
    pub fn new(alloc: Global) -> Links
        ensures { result ≡ no_links }
    {
        Links {
            names: Names {
                numbers: BTreeMap::new(alloc),
                paths: Vec::new(alloc),
            },
            held: Flags {
                flags: Vec::new(alloc),
            },
            by_reference: Lists {
                lists: Vec::new(alloc),
            },
            by_output: Lists {
                lists: Vec::new(alloc),
            },
            by_deriver: Lists {
                lists: Vec::new(alloc),
            },
        }
    }

    /// How many paths have numbers.
    pub fn len(&self) -> usize
        ensures { result ≡ length self.now.names }
    {
        self.names.len()
    }

    /// The number of an object's path. `None` if it is no object's.
    pub fn find(&self, path: &StorePath) -> Option<usize>
        ensures some { IfSome result
            (λ i. (place_of self.now.names path.now ≡ Some i) × (is_held self.now path.now ≡ true)
            × (i < length self.now.names) × (name_at self.now.names i ≡ path.now)) }
        ensures none { IfNone result (is_held self.now path.now ≡ false) }
    {
        let number = self.names.find(path)? as usize;
        if self.held.at(number) {
            return Some(number);
        }
        None
    }

    /// The path of a number.
    pub fn path(&self, number: usize) -> &StorePath
        requires { number < length self.now.names }
        ensures { result.now ≡ name_at self.now.names number }
    {
        self.names.path(number)
    }

    /// The links with those of an object more, with its references, its outputs and its deriver.
    pub fn add(
        self,
        alloc: Global,
        path: &StorePath,
        references: &[StorePath],
        outputs: &[StorePath],
        deriver: Option<&StorePath>,
    ) -> Result<Links, AllocError>
        ensures { IfOk result
            (λ l. IsAdded self l path.now (record {
              references = references.now;
              outputs = outputs.now;
              deriver = option_map (λ p. p.now) deriver.entry;
            })) }
    {
        let Links {
            mut names,
            mut held,
            mut by_reference,
            mut by_output,
            mut by_deriver,
        } = self;
        let source = names.number(path)?;
        held.set(source)?;
        link_all(alloc, &mut names, &mut by_reference, references, source)?;
        link_all(alloc, &mut names, &mut by_output, outputs, source)?;
        link_if(alloc, &mut names, &mut by_deriver, deriver, source)?;
        Ok(Links {
            names,
            held,
            by_reference,
            by_output,
            by_deriver,
        })
    }

    /// Removes the links of an object: those to its references, its outputs and its deriver. It takes no memory.
    pub fn remove(
        &mut self,
        path: &StorePath,
        references: &[StorePath],
        outputs: &[StorePath],
        deriver: Option<&StorePath>,
    )
        ensures { IsRemoved self.old self.new path.now (record {
          references = references.now;
          outputs = outputs.now;
          deriver = option_map (λ p. p.now) deriver.entry;
        }) }
    {
        let Some(source) = self.names.find(path) else {
            return;
        };
        unlink_all(&self.names, &mut self.by_reference, references, source);
        unlink_all(&self.names, &mut self.by_output, outputs, source);
        unlink_if(&self.names, &mut self.by_deriver, deriver, source);
        self.held.clear(source);
    }

    /// Removes objects, and all links of which they are the sources. It reads all links, and takes no memory.
    pub fn remove_all(&mut self, paths: &[StorePath])
        ensures { AreRemoved self.old self.new paths.now }
    {
        clear_all(&self.names, &mut self.held, paths);
        self.by_reference.keep(&self.held);
        self.by_output.keep(&self.held);
        self.by_deriver.keep(&self.held);
    }
}
