//! The queries of the store's tables: each shows the rowids and the texts of one.

ghost use Rattle.std.specs.Prelude.{◌≡◌};
ghost use Rattle.tables_recognize.specs.Tables.{rows_text};

use tables_schema::store_table::StoreTable;

/// Shows the rowid and each text of each row, but neither an archive nor the bytes of a piece. With no order, `sqlite`
/// reads a table or an index from its start to its end.
pub(crate) fn rows(table: StoreTable) -> &'static str
    ensures { result.now ≡ rows_text table }
{
    match table {
        StoreTable::Meta => "SELECT rowid, word, val FROM meta",
        StoreTable::Object => "SELECT rowid, base, hash, deriver, ca FROM object",
        StoreTable::Refs => "SELECT rowid, base, target FROM refs",
        StoreTable::Outs => "SELECT rowid, base, name, target FROM outs",
        StoreTable::Permanent => "SELECT rowid, name, target FROM permanent",
        StoreTable::UserRoot => "SELECT rowid, owner, name, target FROM user_root",
        StoreTable::Profile => "SELECT rowid, owner, name, cur FROM profile",
        StoreTable::Generation => "SELECT rowid, owner, name, num, target FROM generation",
        StoreTable::Runtime => "SELECT rowid, label, target FROM runtime",
        StoreTable::Piece => "SELECT rowid, base, num FROM piece",
        StoreTable::TempRoot => "SELECT rowid, owner, session, target FROM temp_root",
    }
}
