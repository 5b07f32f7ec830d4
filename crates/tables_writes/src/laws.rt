//! A law of the definitions: the contract of a function that does nothing.

ghost use Rattle.tables_writes.specs.TablesValue.{HaveAWorld};

use sqlite::Alter;

/// Tables that are open over a clean disk have a world, so what is promised of each world of the tables is promised of
/// one.
pub fn open_tables_have_a_world<S: Alter>()
    ensures { HaveAWorld S.Store }
{}
