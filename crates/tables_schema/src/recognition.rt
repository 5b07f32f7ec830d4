//! The schema, of the three, by which a database has the store's tables.

ghost use Rattle.std.specs.Prelude.{◌≡◌, ◌≢◌, ◌↔◌, false};
ghost use Rattle.sqlite.specs.Does.{lacks_sequence};
ghost use Rattle.tables_schema.specs.Intact.{IsIntact, HasTables};
ghost use Rattle.tables_schema.specs.Forms.{piece, temp_root};
ghost use Rattle.tables_schema.specs.Presence.{IsFree, HasNone, HasFirst, HasSecond, HasThird};
ghost use Rattle.tables_schema.specs.declared.recognition.Recognised.TheVariants.{Nothing, Tables};
ghost use Rattle.tables_schema.specs.declared.schema.Schema.TheVariants.{V1, V2, V3};

use crate::further::{piece_is_intact, temp_root_is_intact};
use crate::presence::{has_none, has_tables, is_free, lacks_sequence};
use crate::schema::Schema;
use sqlite_schema::schema::Schema as Shown;

/// What a database has of the store's tables. Tables of other names may be next to them, wherever they are. Where
/// tables are missing that can be made, each table that counts its rowids has its counter.
#[derive(Clone, Copy, Debug, PartialEq, Eq)]
pub enum Recognised {
    /// None of the store's eleven names is in use, no foreign key waits for one, and each table that counts its rowids
    /// has its counter.
    Nothing,
    /// The tables of this schema, and nothing under the names of those that it lacks.
    Tables(Schema),
    /// Anything else: a table that is missing, or has another form, or counts its rowids without a counter, which keeps
    /// others from being made.
    Other,
}

/// The schema by which the store's tables exist, if the nine do; `Other` if the further ones fit no schema.
fn by_further(schema: &Shown) -> Recognised
    ensures first { result ≡ Tables V1
        ↔ IsFree schema.now piece.name × IsFree schema.now temp_root.name × (lacks_sequence schema.now ≡ false) }
    ensures second { result ≡ Tables V2
        ↔ IsIntact schema.now piece × IsFree schema.now temp_root.name × (lacks_sequence schema.now ≡ false) }
    ensures third { result ≡ Tables V3 ↔ IsIntact schema.now piece × IsIntact schema.now temp_root }
    ensures some { result ≢ Nothing }
{
    if is_free(schema, b"temp_root") {
        if lacks_sequence(schema) {
            Recognised::Other
        } else if is_free(schema, b"piece") {
            Recognised::Tables(Schema::V1)
        } else if piece_is_intact(schema) {
            Recognised::Tables(Schema::V2)
        } else {
            Recognised::Other
        }
    } else if piece_is_intact(schema) && temp_root_is_intact(schema) {
        Recognised::Tables(Schema::V3)
    } else {
        Recognised::Other
    }
}

/// What a database has of the store's tables.
pub fn recognise(schema: &Shown) -> Recognised
    ensures nothing { result ≡ Nothing ↔ HasNone schema.now }
    ensures first { result ≡ Tables V1 ↔ HasFirst schema.now }
    ensures second { result ≡ Tables V2 ↔ HasSecond schema.now }
    ensures third { result ≡ Tables V3 ↔ HasThird schema.now }
{
    if has_tables(schema) {
        by_further(schema)
    } else if has_none(schema) {
        Recognised::Nothing
    } else {
        Recognised::Other
    }
}
