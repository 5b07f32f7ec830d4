//! The store's tables are made next to whatever tables there are.

ghost use Rattle.std.specs.Prelude.{◌≡◌, ◌<◌, true, map, length, [], ◌∷◌, ℕ, Ok};
ghost use Rattle.sqlite.specs.State.{HasCleanDisk, ExecutesInside};
ghost use Rattle.sqlite.specs.Held.{state};
ghost use Rattle.tables_schema.specs.StoreTables.{form};
ghost use Rattle.tables_sql.specs.declared.failure.Failed.{Failed};
ghost use Rattle.tables_sql.specs.Failures.{IsWriteFailure, without_size};
ghost use Rattle.tables_make.specs.NewTables.{making_text, have_distinct_names, IsMaking, Makes, FailsToMakeThese};
ghost use Rattle.tables_make.specs.Commits.{StepsInside};

use sqlite::{Alter, Transaction};
use tables_schema::store_table::StoreTable;
use tables_sql::failure::Failed;
use tables_sql::statement::without_size;

/// The text that makes the table.
fn text(table: StoreTable) -> &'static str
    ensures { result.now ≡ making_text table }
{
    match table {
        StoreTable::Meta => {
            "CREATE TABLE meta (word TEXT NOT NULL, val TEXT NOT NULL, PRIMARY KEY (word)) STRICT"
        }
        StoreTable::Object => {
            "CREATE TABLE object (base TEXT NOT NULL, nar BLOB NOT NULL, hash BLOB NOT NULL, deriver TEXT, ca TEXT, PRIMARY KEY (base)) STRICT"
        }
        StoreTable::Refs => {
            "CREATE TABLE refs (base TEXT NOT NULL, target TEXT NOT NULL, PRIMARY KEY (base, target)) STRICT"
        }
        StoreTable::Outs => {
            "CREATE TABLE outs (base TEXT NOT NULL, name TEXT NOT NULL, target TEXT NOT NULL, PRIMARY KEY (base, name)) STRICT"
        }
        StoreTable::Permanent => {
            "CREATE TABLE permanent (name TEXT NOT NULL, target TEXT NOT NULL, PRIMARY KEY (name)) STRICT"
        }
        StoreTable::UserRoot => {
            "CREATE TABLE user_root (owner TEXT NOT NULL, name TEXT NOT NULL, target TEXT NOT NULL, PRIMARY KEY (owner, name)) STRICT"
        }
        StoreTable::Profile => {
            "CREATE TABLE profile (owner TEXT NOT NULL, name TEXT NOT NULL, cur INTEGER NOT NULL, PRIMARY KEY (owner, name)) STRICT"
        }
        StoreTable::Generation => {
            "CREATE TABLE generation (owner TEXT NOT NULL, name TEXT NOT NULL, num INTEGER NOT NULL, target TEXT NOT NULL, PRIMARY KEY (owner, name, num)) STRICT"
        }
        StoreTable::Runtime => {
            "CREATE TABLE runtime (label TEXT NOT NULL, target TEXT NOT NULL, PRIMARY KEY (label, target)) STRICT"
        }
        StoreTable::Piece => {
            "CREATE TABLE piece (base TEXT NOT NULL, num INTEGER NOT NULL, bytes BLOB NOT NULL, PRIMARY KEY (base, num)) STRICT"
        }
        StoreTable::TempRoot => {
            "CREATE TABLE temp_root (owner TEXT NOT NULL, session INTEGER NOT NULL, target TEXT NOT NULL, PRIMARY KEY (owner, session, target)) STRICT"
        }
    }
}

fn create<S: Alter>(tx: &mut Transaction<'_, S>, text: &str) -> Result<(), Failed>
    requires { HasCleanDisk (state S.Store tx.old.conn.now) → (state S.Store tx.old.conn.now).in_transaction ≡ true }
    ensures { StepsInside S.Store tx.old.conn tx.new.conn result
        (λ old new. (count : ℕ) × ExecutesInside 0 text.now [] old new (Ok count))
        (λ old new f. (g : Failed) × (f ≡ without_size g) × IsWriteFailure text.now [] old new g) }
{
    match tx.execute(text, &[]) {
        Ok(_) => Ok(()),
        Err(error) => Err(without_size(Failed::from(error))),
    }
}

/// The table, with no row.
pub(crate) fn one<S: Alter>(tx: &mut Transaction<'_, S>, table: StoreTable) -> Result<(), Failed>
    requires { HasCleanDisk (state S.Store tx.old.conn.now)
        → IsMaking (form table ∷ []) (state S.Store tx.old.conn.now) }
    ensures { StepsInside S.Store tx.old.conn tx.new.conn result
        (Makes (form table ∷ [])) (FailsToMakeThese (form table ∷ []) ⊥ ⊥) }
{
    create(tx, text(table))
}

/// Makes these tables, one after another.
pub(crate) fn all<S: Alter>(
    tx: &mut Transaction<'_, S>,
    tables: &[StoreTable],
) -> Result<(), Failed>
    requires some { 0 < length tables.now }
    requires distinct { have_distinct_names (map form tables.now) ≡ true }
    requires making { HasCleanDisk (state S.Store tx.old.conn.now)
        → IsMaking (map form tables.now) (state S.Store tx.old.conn.now) }
    ensures { StepsInside S.Store tx.old.conn tx.new.conn result
        (Makes (map form tables.now)) (FailsToMakeThese (map form tables.now) ⊥ ⊥) }
{
    'tables: for table in tables {
        one(tx, *table)?;
    }
    Ok(())
}
