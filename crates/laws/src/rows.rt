//! Laws of rows: what they describe, and when they are sound.
ghost use Rattle.std.specs.Prelude.{◌≡◌, List, ℕ, IsTrue};
ghost use Rattle.paths.specs.Names.{is_store_dir};
ghost use Rattle.model.specs.World.{no_world};
ghost use Rattle.model.specs.Sound.{IsSound};
ghost use Rattle.tables_world.specs.Rows.{Rows, IsSoundRows, new_rows, world_of};
ghost use Rattle.tables_schema.specs.declared.schema.Schema.{Schema};
ghost use Rattle.laws.specs.CutArchives.{ArchivesAreReadWhole};
ghost use Rattle.tables_world.specs.Laws.{CutsOneWay, MigratesSoundly, OutputsAreRecorded, RowsDescribeTheWorld};
ghost use Rattle.tables_world.specs.Laws.{TablesAreRows};
ghost use Rattle.laws.specs.Schemas.{PiecesCountFromOne, SchemasDiffer, SessionsKeepInBounds};
ghost use Rattle.tables_world.specs.Parts.{AreSoundByParts};

/// The world of a database that was just made is sound in every store directory.
pub fn the_new_world_is_sound()
    ensures { (dir : List ℕ) → IsSound dir no_world }
{}

/// The rows of a database that was just made are sound by their schema, and their world is the new one.
pub fn new_rows_are_sound()
    ensures sound { (schema : Schema) (dir : List ℕ) → IsTrue (is_store_dir dir)
        → IsSoundRows schema dir (new_rows schema dir) }
    ensures world { (schema : Schema) (dir : List ℕ) → world_of (new_rows schema dir) ≡ no_world }
{}

/// Each archive can be cut the right way, and in one way alone.
pub fn archives_are_cut_one_way()
    ensures { (nar : List ℕ) → CutsOneWay nar }
{}

/// The world of sound rows, entry by entry: what each column holds.
pub fn rows_describe_the_world()
    ensures { RowsDescribeTheWorld }
{}

/// What the eleven tables hold is the rows, each table its own, and has the world of these; an object's archive is its
/// row and the pieces that follow it, from the first on.
pub fn tables_are_rows()
    ensures rows { TablesAreRows }
    ensures archives { ArchivesAreReadWhole }
{}

/// A migration keeps the world, and what was sound by its schema is sound by the third.
pub fn migration_keeps_the_world()
    ensures { MigratesSoundly }
{}

/// Rows are sound exactly where each of them is, compared with the others: what an opening tests, row by row.
pub fn sound_rows_are_sound_parts()
    ensures { AreSoundByParts }
{}

/// Sound rows name their schema by 1, 2 or 3 and hold nothing that it hasn't; further pieces are numbered from 1, and
/// sessions 1 to 4,194,304.
pub fn schemas_have_their_rows()
    ensures schemas { (dir : List ℕ) (c : Rows) → SchemasDiffer dir c }
    ensures pieces { PiecesCountFromOne }
    ensures sessions { SessionsKeepInBounds }
{}

/// An object whose name ends in `.drv` records the outputs of its derivation text that have a path, by their names, and
/// any other none.
pub fn outputs_are_those_of_the_derivation()
    ensures { OutputsAreRecorded }
{}
