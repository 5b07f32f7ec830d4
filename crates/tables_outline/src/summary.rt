//! Objects without the bytes of their archives.

ghost use Rattle.std.specs.Prelude.{◌≡◌, List, ℕ, IfOk, IsTrue, length, map, string_bytes, option_map};
ghost use Rattle.std.specs.FinMap as finite;
ghost use Rattle.std.specs.FinMap.Entries.{is_sorted};
ghost use Rattle.std.specs.List.{zip};
ghost use Rattle.paths.specs.Root.{bytes_cmp, set_of};
ghost use Rattle.tables_outline.specs.Outline.{rise};

use crate::details::{Details, boxed};
use crate::shared_texts::share;
use paths::{Ca, StorePath};
use std::alloc::{AllocError, Global};
use std::collections::BTreeMap;
use std::marker::Model;

/// An object but for the bytes of its archive. Contracts see its references as a set, and its outputs as a map. What
/// few objects have is in a box, so that an index of many objects is small.
#[derive(Drop)]
pub struct Summary {
    size: usize,
    hash: [u8; 32],
    references: Vec<StorePath>,
    details: Option<Box<Details>>,
}

impl Model for Summary {
    ghost use Rattle.tables_outline.specs.Outline.{Outlined, outlined_code};

    ghost Value = { Outlined };

    ghost coded = { outlined_code };

    ghost use Rattle.tables_outline.specs.Summary.{summary_view, IsOrdered};

    ghost view = { summary_view };

    ghost invariant = { IsOrdered };
}

impl Summary {
    /// The summary of an object: the size in bytes and the SHA-256 of its archive, its references in order, and its
    /// details.
    ///
    /// ```rust
    /// use sha2::{Digest, Sha256};
    /// use tables::{Details, Outputs, Summary};
    ///
    /// let (hash, references) = (Sha256::digest("abc"), Vec::new(alloc));
    /// let outputs = Outputs { names: Vec::new(alloc), paths: Vec::new(alloc) };
    /// let object = Summary::new(alloc, 3, hash, references, Details { deriver: None, ca: None, outputs })?;
    /// assert_eq!(rt; object.hash(), &Sha256::digest("abc"));
    /// ```
    ///
    /// # Errors
    ///
    /// Memory was refused. An object without a deriver, an address and outputs takes none.
    pub fn new(
        alloc: Global,
        size: usize,
        hash: [u8; 32],
        references: Vec<StorePath>,
        details: Details,
    ) -> Result<Summary, AllocError>
        requires references { IsTrue (rise references.items) }
        requires names { IsTrue (rise (map string_bytes details.outputs.names.items)) }
        requires paths { length details.outputs.paths.items ≡ length details.outputs.names.items }
        ensures { IfOk result
            (λ it. it ≡ record {
              size = size;
              hash = hash;
              references = set_of bytes_cmp references.items;
              deriver = details.deriver;
              ca = details.ca;
              outputs = finite.from_entries
                  (zip (map string_bytes details.outputs.names.items) details.outputs.paths.items);
            }) }
    {
        let details = boxed(alloc, details)?;
        Ok(Summary {
            size,
            hash,
            references,
            details,
        })
    }

    /// Lets each reference share the text of an equal path, `new` or a key of `objects`, if there is one.
    pub(crate) fn share_references(
        &mut self,
        new: &StorePath,
        objects: &BTreeMap<StorePath, Summary>,
    )
        ensures same { self.new ≡ self.old }
    {
        share(&mut self.references, new, objects);
    }

    /// The size of the archive in bytes.
    ///
    /// ```rust
    /// assert_eq!(rt; tables.outline().object(path).map(|object| object.size()), Some(128));
    /// ```
    pub fn size(&self) -> usize
        ensures { result ≡ self.now.size }
    {
        self.size
    }

    /// The SHA-256 of the archive.
    ///
    /// ```rust
    /// if let Some(object) = tables.outline().object(path) {
    ///     let digits = paths::base32(alloc, object.hash())?;
    ///     assert_eq!(rt; digits.as_str(), "1qwy7y49hyqd7kdpkyjfclz5fkfqalqapzc4v18lbibkx1yzdzib");
    /// }
    /// ```
    pub fn hash(&self) -> &[u8; 32]
        ensures { result.now ≡ self.now.hash }
    {
        &self.hash
    }

    /// The references, in order.
    ///
    /// ```rust
    /// assert!(rt; tables.outline().object(path).is_some_and(|object| object.references().is_empty()));
    /// ```
    pub fn references(&self) -> &[StorePath]
        ensures { result.now ≡ finite.keys self.now.references }
    {
        self.references.as_slice()
    }

    /// The deriver, if one is recorded.
    ///
    /// ```rust
    /// assert!(rt; tables.outline().object(path).is_some_and(|object| object.deriver().is_none()));
    /// ```
    pub fn deriver(&self) -> Option<&StorePath>
        ensures { option_map (λ p. p.now) result ≡ self.now.deriver }
    {
        match &self.details {
            Some(details) => details.deriver.as_ref(),
            None => None,
        }
    }

    /// The content address, if one is recorded.
    ///
    /// ```rust
    /// use paths::Method;
    ///
    /// let address = tables.outline().object(path).and_then(|object| object.ca());
    /// assert_eq!(rt; address.map(|address| address.method()), Some(Method::Text));
    /// ```
    pub fn ca(&self) -> Option<Ca>
        ensures { result ≡ self.now.ca }
    {
        match &self.details {
            Some(details) => details.ca,
            None => None,
        }
    }

    /// The names of the outputs, in order.
    ///
    /// ```rust
    /// assert!(rt; tables.outline().object(path).is_some_and(|object| object.names().is_empty()));
    /// ```
    pub fn names(&self) -> &[String]
        ensures { map string_bytes result.now ≡ finite.keys self.now.outputs }
    {
        match &self.details {
            Some(details) => details.outputs.names.as_slice(),
            None => &[],
        }
    }

    /// The paths of the outputs, in the order of their names.
    ///
    /// ```rust
    /// assert!(rt; tables.outline().object(path).is_some_and(|object| object.outputs().is_empty()));
    /// ```
    pub fn outputs(&self) -> &[StorePath]
        ensures { result.now ≡ finite.values self.now.outputs }
    {
        match &self.details {
            Some(details) => details.outputs.paths.as_slice(),
            None => &[],
        }
    }
}
