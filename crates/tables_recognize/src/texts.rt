//! Whether the texts of the store's tables are UTF-8.

ghost use Rattle.std.specs.Prelude.{◌↔◌, IsTrue};
ghost use Rattle.sqlite_value.specs.Value.{owned};
ghost use Rattle.tables_sql.specs.Texts.{IsReadable, IsReadableRow};

use sqlite::Row;
use sqlite::types::ValueRef;

fn is_readable(value: ValueRef<'_>) -> bool
    ensures { IsTrue result ↔ IsReadable (owned value.entry) }
{
    match value {
        ValueRef::Text(text) => std::str::from_utf8(text).is_ok(),
        _ => true,
    }
}

/// Whether each text that a row shows is UTF-8.
pub(crate) fn are_readable(row: &Row) -> bool
    ensures { IsTrue result ↔ IsReadableRow row.now }
{
    for at in 0..row.column_count() {
        if let Ok(value) = row.get_ref(at) {
            if !is_readable(value) {
                return false;
            }
        }
    }
    true
}
