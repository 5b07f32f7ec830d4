//! The tables: a connection, a store directory, and the outline of the rows.

ghost use Rattle.std.specs.Prelude.{◌≡◌, false, None, length};
ghost use Rattle.std.specs.FinMap as finite;
ghost use Rattle.sha2.specs.Sha256.{sha256};
ghost use Rattle.tables_writes.specs.Entries.{with_archived};
ghost use Rattle.tables_writes.specs.Writes.{StaysSound, CommitsChange, FailsToChange};
ghost use Rattle.tables_writes.specs.RowsPut.{AddedRows};

use crate::change;
use crate::objects::InsertObject;
use crate::texts::texts_of;
use paths::{StoreDir, StorePath};
use sqlite::{Alter, Connection};
use std::alloc::Global;
use std::marker::Model;
use streams::Pieces;
use tables_outline::{Outline, Summary};
use tables_sql::failure::Failed;

/// The tables of a store, over a connection of their own.
pub struct Tables<S: Alter> {
    pub(crate) alloc: Global,
    pub(crate) connection: Connection<S>,
    pub(crate) dir: StoreDir,
    pub(crate) outline: Outline,
}

impl<S: Alter> Model for Tables<S> {
    ghost use Rattle.tables_writes.specs.TablesValue.{TablesValue, kept_code, Agrees};

    ghost Value = { TablesValue S };

    ghost coded = { kept_code S.code };

    ghost view = { λ t. record { connection = t.connection; dir = t.dir; outline = t.outline } };

    ghost invariant = { λ t. Agrees S.Store (record { connection = t.connection; dir = t.dir; outline = t.outline }) };
}

impl<S: Alter> Tables<S> {
    /// The outline, borrowed: what the tables hold except the bytes of archives, in memory.
    ///
    /// ```rust
    /// let object = tables.outline().object(path);
    /// assert_eq!(rt; object.map(|object| object.size()), Some(128));
    /// ```
    pub fn outline(&self) -> &Outline
        ensures { result.now ≡ self.now.outline }
    {
        &self.outline
    }

    /// Keeps the links of the outline's objects turned round from now on, through all changes, as far as there is
    /// memory. Whoever asks much of one store, as a server does, calls it once.
    ///
    /// ```rust
    /// tables.turn_links();
    /// assert!(rt; tables.outline().links().is_some());
    /// ```
    pub fn turn_links(&mut self)
        ensures { self.new ≡ self.old }
    {
        self.outline.turn_links();
    }

    /// Drops the outline and returns the connection, which is outside a transaction.
    ///
    /// ```rust
    /// use paths::StoreDir;
    /// use tables::Tables;
    ///
    /// let tables = tables::open_in_memory(alloc, &StoreDir::parse(alloc, "/nix/store")?)?;
    /// let conn = tables.release();
    /// assert!(rt; conn.is_autocommit());
    /// ```
    pub fn release(self) -> Connection<S>
        ensures idle { result.in_transaction ≡ false }
        ensures same { result ≡ self.connection }
    {
        let Tables {
            alloc: _alloc,
            connection,
            dir: _dir,
            outline: _outline,
        } = self;
        connection
    }

    /// Adds an object at a path that has none: `nar` is the archive, `object` the summary. The caller ensures that the
    /// world is sound afterwards.
    ///
    /// ```rust
    /// use nar::Node;
    /// use paths::Ca;
    /// use sha2::{Digest, Sha256};
    /// use tables::{Details, Outputs, Pieces, Summary};
    ///
    /// let mut archive = Vec::new(alloc);
    /// nar::write(&Node::Regular { executable: false, contents: b"mycontent\n" }, &mut archive)?;
    /// let (hash, ca) = (Sha256::digest(&archive), Some(Ca::of_text(b"mycontent\n")));
    /// let outputs = Outputs { names: Vec::new(alloc), paths: Vec::new(alloc) };
    /// let details = Details { deriver: None, ca, outputs };
    /// let object = Summary::new(alloc, 128, hash, Vec::new(alloc), details)?;
    /// let mut nar = Pieces::new(alloc);
    /// nar.append(archive)?;
    /// tables.insert_object(path, &nar, object)?;
    /// ```
    ///
    /// # Errors
    ///
    /// Memory was refused, the row of the object is too large, or the disk failed, and then nothing has changed.
    pub fn insert_object(
        &mut self,
        path: &StorePath,
        nar: &Pieces,
        object: Summary,
    ) -> Result<(), Failed>
        requires new { finite.get self.old.outline.objects path.now ≡ None }
        requires size { object.size ≡ length nar.now }
        requires hash { object.hash ≡ sha256 nar.now }
        requires sound { StaysSound S.Store self.old (with_archived path.now nar.now object) }
        ensures frame { CommitsChange S.Store self.old self.new result (with_archived path.now nar.now object) }
        ensures cause { FailsToChange S.Store self.old self.new result (AddedRows path.now nar.now object) }
    {
        let texts = texts_of(self.alloc, &object)?;
        let key = path.clone()?;
        self.outline.insert_object(key, object)?;
        let Some(object) = self.outline.object(path) else {
            unreachable!()
        };
        let insert = InsertObject {
            base: path.as_str(),
            nar,
            object,
            texts: &texts,
        };
        match change::commit(&mut self.connection, &insert) {
            Ok(()) => Ok(()),
            Err(failure) => {
                self.outline.remove_object(path);
                Err(failure)
            }
        }
    }
}
