//! A connection in memory, opened as a store.

ghost use Rattle.std.specs.Prelude.{◌≡◌, false};

use super::{SETTINGS, TEXT_PATH, push_list, push_replies, push_text};
use paths::StoreDir;
use policy::{Caller, Config, store_dir};
use sqlite::{Connection, MemStore};
use std::alloc::Global;
use std::test::Fail;
use store::Store;
use store_types::Request;
use tables::{Cause, Unadopted, adopt};

/// What is answered where a text is added and then listed.
const ADDED: &str = "/nix/store/a0d1zlpv81nsfbam8ay3i7snrc0sgsvr-myfile
/nix/store/a0d1zlpv81nsfbam8ay3i7snrc0sgsvr-myfile
";

/// A connection that is in no transaction.
#[derive(Drop)]
struct Idle {
    conn: Connection<MemStore>,
    ghost rests: { conn.in_transaction ≡ false },
}

/// The connection is opened, serves some calls, and is given up; with it comes what they answered.
fn served(
    alloc: Global,
    idle: Idle,
    calls: Vec<(Caller, Request)>,
) -> Result<(Idle, Vec<u8>), Fail> {
    let config = Config::from_toml(alloc, SETTINGS)?;
    let tables = match adopt(alloc, idle.conn, store_dir(&config)) {
        Ok(tables) => tables,
        Err(Unadopted { conn: _conn, cause }) => return Err(Fail::from(cause)),
    };
    let mut store = Store::new(alloc, config, tables);
    let replies = store.run(calls);
    let conn = store.release().release();
    let mut reported = Vec::new(alloc);
    push_replies(alloc, replies?, &mut reported)?;
    Ok((Idle { conn }, reported))
}

/// Why the connection isn't opened as the store of a directory; it is returned.
fn refused(alloc: Global, idle: Idle, dir: &str) -> Result<(Idle, Cause), Fail> {
    let dir = StoreDir::parse(alloc, dir)?;
    match adopt(alloc, idle.conn, &dir) {
        Ok(tables) => {
            drop(tables.release());
            Err(Fail::new("opened"))
        }
        Err(Unadopted { conn, cause }) => Ok((Idle { conn }, cause)),
    }
}

/// A connection that turns out to be in no transaction.
fn to_idle(conn: Connection<MemStore>) -> Result<Idle, Fail> {
    if conn.is_autocommit() {
        Ok(Idle { conn })
    } else {
        Err(Fail::new("in a transaction"))
    }
}

/// A database that has one of a store's tables and no other.
fn with_one_store_table(alloc: Global) -> Result<Idle, Fail> {
    let mut conn = Connection::open_in_memory(alloc)?;
    conn.execute("CREATE TABLE meta (key TEXT PRIMARY KEY, value TEXT)", &[])?;
    to_idle(conn)
}

#[test]
fn opened_again(rt: HostRuntime) -> Result<(), Fail> {
    let alloc = rt.alloc();
    let mut calls = Vec::new(alloc);
    push_list(alloc, &mut calls)?;
    let conn = Connection::open_in_memory(alloc)?;
    let (conn, reported) = served(alloc, Idle { conn }, calls)?;
    assert!(rt; reported.is_empty());
    let mut calls = Vec::new(alloc);
    push_text(alloc, &mut calls)?;
    push_list(alloc, &mut calls)?;
    let (conn, reported) = served(alloc, conn, calls)?;
    assert!(rt; reported.as_slice() == ADDED.as_bytes());
    let (conn, cause) = refused(alloc, conn, "/other/store")?;
    assert_eq!(rt; cause, Cause::OtherStoreDir);
    let mut calls = Vec::new(alloc);
    push_list(alloc, &mut calls)?;
    let (_conn, reported) = served(alloc, conn, calls)?;
    assert!(rt; reported.as_slice() == TEXT_PATH.as_bytes());
    Ok(())
}

#[test]
fn refused_for_a_table(rt: HostRuntime) -> Result<(), Fail> {
    let alloc = rt.alloc();
    let (Idle { mut conn }, cause) = refused(alloc, with_one_store_table(alloc)?, "/nix/store")?;
    assert_eq!(rt; cause, Cause::BadSchema);
    conn.execute("DROP TABLE meta", &[])?;
    let mut calls = Vec::new(alloc);
    push_list(alloc, &mut calls)?;
    let (_conn, reported) = served(alloc, to_idle(conn)?, calls)?;
    assert!(rt; reported.is_empty());
    Ok(())
}
