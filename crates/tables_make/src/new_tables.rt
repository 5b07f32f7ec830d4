//! Making the store's tables, all at once, next to whatever tables there are.

ghost use Rattle.std.specs.Prelude.{[], ◌∷◌, codes, IsSome, IsTrue};
ghost use Rattle.sqlite_value.specs.declared.value.Value.TheVariants.{Text};
ghost use Rattle.sqlite.specs.Effect.{IsDatabase};
ghost use Rattle.sqlite.specs.State.{HasCleanDisk};
ghost use Rattle.sqlite.specs.Held.{state};
ghost use Rattle.tables_schema.specs.Forms.{meta};
ghost use Rattle.tables_sql.specs.Failures.{IsWriteFailure};
ghost use Rattle.tables_make.specs.NewTables.{IsMaking, HasMeta, Puts, MakesMeta, MakesAll, IsMade, IsMadeIn, IsMadeOf};
ghost use Rattle.tables_make.specs.NewTables.{LeavesMade, IsTooLong, FailsToMakeThese, FailsToMake, other_tables};
ghost use Rattle.tables_make.specs.Commits.{StepsInside, CommitsTables, MayMake};

use crate::creation;
use sqlite::{Alter, Connection, Transaction, params};
use tables_schema::Schema;
use tables_schema::store_table::{StoreTable, schema_tables};
use tables_sql::failure::Failed;

fn put<S: Alter>(tx: &mut Transaction<'_, S>, word: &str, value: &str) -> Result<(), Failed>
    requires { HasCleanDisk (state S.Store tx.old.conn.now) → HasMeta (state S.Store tx.old.conn.now) }
    ensures { StepsInside S.Store tx.old.conn tx.new.conn result (Puts word.now value.now)
        (IsWriteFailure (codes "INSERT INTO meta (word, val) VALUES (?1, ?2)") (Text word.now ∷ Text value.now ∷ [])) }
{
    tx.execute(
        "INSERT INTO meta (word, val) VALUES (?1, ?2)",
        params![word, value],
    )?;
    Ok(())
}

/// `meta` with its two settings.
fn settle<S: Alter>(tx: &mut Transaction<'_, S>, store_dir: &str) -> Result<(), Failed>
    requires { HasCleanDisk (state S.Store tx.old.conn.now)
        → IsMaking (meta ∷ other_tables) (state S.Store tx.old.conn.now) }
    ensures { StepsInside S.Store tx.old.conn tx.new.conn result (MakesMeta store_dir.now)
        (FailsToMakeThese (meta ∷ []) (IsTooLong store_dir.now) (IsSome (state S.Store tx.old.conn.now).step_limit)) }
{
    creation::one(tx, StoreTable::Meta)?;
    put(tx, "schema", Schema::V3.text())?;
    put(tx, "store-dir", store_dir)
}

fn make_all<S: Alter>(tx: &mut Transaction<'_, S>, store_dir: &str) -> Result<(), Failed>
    requires { HasCleanDisk (state S.Store tx.old.conn.now)
        → IsMaking (meta ∷ other_tables) (state S.Store tx.old.conn.now) }
    ensures { StepsInside S.Store tx.old.conn tx.new.conn result (MakesAll store_dir.now) (FailsToMake store_dir.now) }
{
    settle(tx, store_dir)?;
    creation::all(tx, &schema_tables(Schema::V3)[1..])
}

#[tactic(auto, using(crate::proofs::Settles::committed_made))]
fn make_and_commit<S: Alter>(conn: &mut Connection<S>, store_dir: &str) -> Result<(), Failed>
    requires may_make { MayMake S.Store conn.old }
    requires sound { HasCleanDisk (state S.Store conn.old) → IsTrue (state S.Store conn.old).is_open
        → IsDatabase (state S.Store conn.old).now }
    ensures { CommitsTables S.Store conn.old conn.new result store_dir.now (IsMadeIn store_dir.now)
        (λ db. IsTrue (state S.Store conn.old).is_open × IsMadeOf store_dir.now (state S.Store conn.old).now db) }
{
    let mut tx = conn.transaction();
    make_all(&mut tx, store_dir)?;
    tx.commit()?;
    Ok(())
}

/// Makes the store's eleven tables next to whatever tables there are, `meta` with the settings `schema` = `3` and
/// `store-dir`, the others with no row: all at once, or nothing. Then the connection is ready for transactions.
pub fn make<S: Alter>(conn: &mut Connection<S>, store_dir: &str) -> Result<(), Failed>
    requires { MayMake S.Store conn.old }
    ensures { CommitsTables S.Store conn.old conn.new result store_dir.now (IsMade store_dir.now)
        (LeavesMade store_dir.now (state S.Store conn.old).now) }
{
    // What an open connection shows lists its schema.
    let _listed = conn.schema();
    // And a text is UTF-8.
    let _text = store_dir.as_bytes();
    make_and_commit(conn, store_dir)
}
