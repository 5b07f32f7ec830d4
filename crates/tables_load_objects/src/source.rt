//! What objects are read from.

use crate::joined::Joined;
use paths::{StoreDir, StorePath};
use tables_schema::Schema;

/// A database by its schema, with what is read of it before its objects: all rows of other tables, and the bases of all
/// objects, in order. Its paths are made of these bases, in this store directory, and what is loaded shares their texts.
#[derive(Drop)]
pub(crate) struct Source<'a> {
    pub(crate) schema: Schema,
    pub(crate) dir: &'a StoreDir,
    pub(crate) joined: &'a Joined,
    pub(crate) bases: &'a [String],
    pub(crate) paths: &'a [StorePath],
}
