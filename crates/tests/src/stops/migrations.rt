//! Files of earlier schemas, which an opening brings to the third, stopped at each call of a file.
use crate::libraries::archives::spelled;
use crate::stops::cases::{case_of, earlier_of};
use crate::stops::disks::{Contents, DiskStore, close, connect, files_of, held_in};
use crate::stops::stop_both;
use crate::stops::texts::{FIRST, SECOND, THIRD};
use sqlite::{Connection, params};
use std::alloc::{AllocError, Global};
use std::test::Fail;

const FIRST_TABLES: &str = "
CREATE TABLE meta (word TEXT NOT NULL, val TEXT NOT NULL, PRIMARY KEY (word)) STRICT;
CREATE TABLE object (base TEXT NOT NULL, nar BLOB NOT NULL, hash BLOB NOT NULL, deriver TEXT, ca TEXT, PRIMARY KEY (base)) STRICT;
CREATE TABLE refs (base TEXT NOT NULL, target TEXT NOT NULL, PRIMARY KEY (base, target)) STRICT;
CREATE TABLE outs (base TEXT NOT NULL, name TEXT NOT NULL, target TEXT NOT NULL, PRIMARY KEY (base, name)) STRICT;
CREATE TABLE permanent (name TEXT NOT NULL, target TEXT NOT NULL, PRIMARY KEY (name)) STRICT;
CREATE TABLE user_root (owner TEXT NOT NULL, name TEXT NOT NULL, target TEXT NOT NULL, PRIMARY KEY (owner, name)) STRICT;
CREATE TABLE profile (owner TEXT NOT NULL, name TEXT NOT NULL, cur INTEGER NOT NULL, PRIMARY KEY (owner, name)) STRICT;
CREATE TABLE generation (owner TEXT NOT NULL, name TEXT NOT NULL, num INTEGER NOT NULL, target TEXT NOT NULL, PRIMARY KEY (owner, name, num)) STRICT;
CREATE TABLE runtime (label TEXT NOT NULL, target TEXT NOT NULL, PRIMARY KEY (label, target)) STRICT;
";

const SECOND_TABLES: &str = "
CREATE TABLE piece (base TEXT NOT NULL, num INTEGER NOT NULL, bytes BLOB NOT NULL, PRIMARY KEY (base, num)) STRICT;
";

const THIRD_TABLES: &str = "
CREATE TABLE temp_root (owner TEXT NOT NULL, session INTEGER NOT NULL, target TEXT NOT NULL, PRIMARY KEY (owner, session, target)) STRICT;
";

/// A root of each kind that the earlier schemas have, on the one object.
const ROWS: &str = "
INSERT INTO meta VALUES ('store-dir', '/nix/store');
INSERT INTO permanent VALUES ('ours', '00000000000000000000000000000000-n');
INSERT INTO user_root VALUES ('ann', 'mine', '00000000000000000000000000000000-n');
INSERT INTO profile VALUES ('ann', 'work', 1);
INSERT INTO generation VALUES ('ann', 'work', 1, '00000000000000000000000000000000-n');
INSERT INTO runtime VALUES ('/proc/1/exe', '00000000000000000000000000000000-n');
";

const BASE: &str = "00000000000000000000000000000000-n";

/// The SHA-256 of the archive, which another program computed.
const HASH: [u8; 32] = [
    0x62, 0x1b, 0x4b, 0x80, 0xdd, 0xf2, 0xad, 0xa7, 0x46, 0x97, 0x0b, 0x6b, 0x1f, 0x06, 0x21, 0x51,
    0xaa, 0xc8, 0xa0, 0xce, 0x69, 0xba, 0xf6, 0xe6, 0x83, 0x64, 0xf3, 0xec, 0x40, 0xe5, 0x74, 0xf6,
];

/// The archive of a file of 65,432 letters: 65,544 bytes, which are a piece and 8 bytes.
fn archive(alloc: Global) -> Result<Vec<u8>, AllocError> {
    let mut out = spelled(alloc, "nix-archive-1 ( type regular contents")?;
    out.extend_from_slice(&65_432u64.to_le_bytes())?;
    for _ in 0..65_432 {
        out.push(b'a')?;
    }
    out.extend_from_slice(&spelled(alloc, ")")?)?;
    Ok(out)
}

/// Tables without rows, and then all rows but those of the schema and the object.
fn put_tables(conn: &mut Connection<DiskStore>, tables: &[&str]) -> Result<(), Fail> {
    for batch in tables {
        conn.execute_batch(batch)?;
    }
    conn.execute_batch(ROWS)?;
    Ok(())
}

fn put_schema(conn: &mut Connection<DiskStore>, schema: &str) -> Result<(), Fail> {
    conn.execute("INSERT INTO meta VALUES ('schema', ?1)", params![schema])?;
    Ok(())
}

fn put_object(conn: &mut Connection<DiskStore>, nar: &[u8]) -> Result<(), Fail> {
    conn.execute(
        "INSERT INTO object VALUES (?1, ?2, ?3, NULL, NULL)",
        params![BASE, nar, HASH.as_slice()],
    )?;
    Ok(())
}

/// The object with its archive cut in two.
fn put_cut(conn: &mut Connection<DiskStore>, nar: &[u8]) -> Result<(), Fail> {
    let (first, rest) = nar.split_at(65_536.min(nar.len()));
    put_object(conn, first)?;
    conn.execute("INSERT INTO piece VALUES (?1, 1, ?2)", params![BASE, rest])?;
    Ok(())
}

/// Files that hold a store of this schema.
fn made(alloc: Global, tables: &[&str], schema: &str, is_cut: bool) -> Result<Contents, Fail> {
    let nar = archive(alloc)?;
    let files = files_of(alloc, &[], &[], u64::MAX, u64::MAX)?;
    let mut conn = match connect(alloc, files) {
        Ok(conn) => conn,
        Err(_) => return Err(Fail::new("the files aren't opened")),
    };
    put_tables(&mut conn, tables)?;
    put_schema(&mut conn, schema)?;
    if is_cut {
        put_cut(&mut conn, &nar)?;
    } else {
        put_object(&mut conn, &nar)?;
    }
    let files = close(conn);
    Ok(held_in(alloc, &files)?)
}

/// Rows of the third schema, with nothing in it that the earlier ones haven't.
fn third(alloc: Global) -> Result<Vec<u8>, Fail> {
    let held = made(
        alloc,
        &[FIRST_TABLES, SECOND_TABLES, THIRD_TABLES],
        "3",
        true,
    )?;
    earlier_of(alloc, &held, THIRD)
}

/// An opening of these files leaves the rows of the third schema, and each stop leaves those or what was there.
fn stop_migration(
    alloc: Global,
    start: Contents,
    queries: &'static [&'static str],
) -> Result<(), Fail> {
    let case = case_of(alloc, start, queries, b"", &[], "")?;
    let third = third(alloc)?;
    if case.worlds.iter().any(|world| *world != third) {
        return Err(Fail::new("another store"));
    }
    stop_both(alloc, &case)
}

#[test]
fn migrations_of_the_first_schema_that_stop(rt: HostRuntime) -> Result<(), Fail> {
    let alloc = rt.alloc();
    let start = made(alloc, &[FIRST_TABLES], "1", false)?;
    stop_migration(alloc, start, FIRST)
}

#[test]
fn migrations_of_the_second_schema_that_stop(rt: HostRuntime) -> Result<(), Fail> {
    let alloc = rt.alloc();
    let start = made(alloc, &[FIRST_TABLES, SECOND_TABLES], "2", true)?;
    stop_migration(alloc, start, SECOND)
}
