//! A caller of `tables`: tables are opened, read and given up.
use crate::fixtures::{TEXT, path, store_dir};
use paths::{StoreDir, StorePath};
use std::alloc::Global;
use std::fs::remove_file;
use std::test::Fail;
use tables::{Cause, Connection, Failed, MemStore, Tables, Unadopted, Unknown, adopt, open};

fn is_known(tables: &Tables<MemStore>, path: &StorePath) -> bool {
    tables.outline().has(path)
}

fn is_archived(tables: &mut Tables<MemStore>, path: &StorePath) -> Result<bool, Failed> {
    Ok(tables.archive(path)?.is_some())
}

fn is_object(tables: &mut Tables<MemStore>, path: &StorePath) -> Result<bool, Failed> {
    Ok(tables.object(path)?.is_some())
}

fn is_profile(tables: &mut Tables<MemStore>, owner: &str, name: &str) -> Result<bool, Failed> {
    Ok(tables.profile(owner, name)?.is_some())
}

/// The numbers of objects and of roots.
fn counts_of(tables: &mut Tables<MemStore>) -> Result<(usize, usize), Failed> {
    let snapshot = tables.snapshot()?;
    Ok((snapshot.objects.len(), snapshot.roots.len()))
}

/// Whether something is found in new tables.
fn read_all(tables: &mut Tables<MemStore>, path: &StorePath) -> Result<bool, Failed> {
    if is_known(tables, path) {
        return Ok(true);
    }
    if is_archived(tables, path)? {
        return Ok(true);
    }
    if is_object(tables, path)? {
        return Ok(true);
    }
    if is_profile(tables, "ann", "work")? {
        return Ok(true);
    }
    let (objects, roots) = counts_of(tables)?;
    Ok(objects > 0 || roots > 0)
}

/// Reads new tables, and gives them up. Whether something was found, and the connection is outside a transaction.
fn read_new(alloc: Global, dir: &StoreDir, path: &StorePath) -> Result<(bool, bool), Failed> {
    let mut tables = tables::open_in_memory(alloc, dir)?;
    tables.turn_links();
    let found = read_all(&mut tables, path);
    let conn = tables.release();
    Ok((found?, conn.is_autocommit()))
}

#[test]
fn opened_in_memory(rt: HostRuntime) -> Result<(), Fail> {
    let alloc = rt.alloc();
    let (dir, path) = (store_dir(alloc)?, path(alloc, TEXT)?);
    assert_eq!(rt; read_new(alloc, &dir, &path)?, (false, true));
    Ok(())
}

/// Adopts a connection for a directory, and gives it up again; or why that isn't done.
fn adopted(
    alloc: Global,
    conn: Connection<MemStore>,
    dir: &StoreDir,
) -> Result<(Connection<MemStore>, Option<Cause>), Fail> {
    if !conn.is_autocommit() {
        return Err(Fail::new("in a transaction"));
    }
    match adopt(alloc, conn, dir) {
        Ok(tables) => Ok((tables.release(), None)),
        Err(Unadopted { conn, cause }) => Ok((conn, Some(cause))),
    }
}

// A connection that was given up is adopted again, but for another directory.
#[test]
fn adopted_and_released(rt: HostRuntime) -> Result<(), Fail> {
    let alloc = rt.alloc();
    let dir = store_dir(alloc)?;
    let other = StoreDir::parse(alloc, "/other/store")?;
    let (conn, cause) = adopted(alloc, Connection::open_in_memory(alloc)?, &dir)?;
    assert_eq!(rt; cause, None);
    let (conn, cause) = adopted(alloc, conn, &other)?;
    assert_eq!(rt; cause, Some(Cause::OtherStoreDir));
    let (_conn, cause) = adopted(alloc, conn, &dir)?;
    assert_eq!(rt; cause, None);
    Ok(())
}

/// Why the file at a path isn't opened as the store of a directory, if it isn't.
fn cause_of(rt: &HostRuntime, at: &str, dir: &StoreDir) -> Option<Cause> {
    match open(rt, at, dir, Unknown) {
        Ok(tables) => {
            drop(tables.release());
            None
        }
        Err(unopened) => Some(unopened.cause()),
    }
}

// A file is made, and opened again, but for another directory. The tests run in a folder of their own.
#[test]
fn opened_as_a_file(rt: HostRuntime) -> Result<(), Fail> {
    let alloc = rt.alloc();
    let dir = store_dir(alloc)?;
    let other = StoreDir::parse(alloc, "/other/store")?;
    let _ = remove_file(&rt, "callers.db");
    assert_eq!(rt; cause_of(&rt, "callers.db", &dir), None);
    assert_eq!(rt; cause_of(&rt, "callers.db", &dir), None);
    let cause = cause_of(&rt, "callers.db", &other);
    assert_eq!(rt; cause, Some(Cause::OtherStoreDir));
    remove_file(&rt, "callers.db")?;
    Ok(())
}
