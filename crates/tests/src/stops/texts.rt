//! What is in a database, as text.
use crate::stops::disks::DiskStore;
use sqlite::Connection;
use std::alloc::Global;
use std::test::Fail;

const NAMES: &str = "SELECT name FROM sqlite_schema WHERE type = 'table' ORDER BY name";

const META: &str = "SELECT word || ' ' || val FROM meta ORDER BY word";

const OBJECTS: &str =
    "SELECT base || ' ' || hex(nar) || ' ' || hex(hash) || ' ' || coalesce(deriver, '') || ' ' || coalesce(ca, '') FROM object ORDER BY base";

const REFS: &str = "SELECT base || ' ' || target FROM refs ORDER BY base, target";

const OUTS: &str = "SELECT base || ' ' || name || ' ' || target FROM outs ORDER BY base, name";

const PERMANENT: &str = "SELECT name || ' ' || target FROM permanent ORDER BY name";

const USER_ROOTS: &str =
    "SELECT owner || ' ' || name || ' ' || target FROM user_root ORDER BY owner, name";

const PROFILES: &str =
    "SELECT owner || ' ' || name || ' ' || cur FROM profile ORDER BY owner, name";

const GENERATIONS: &str =
    "SELECT owner || ' ' || name || ' ' || num || ' ' || target FROM generation ORDER BY owner, name, num";

const RUNTIME: &str = "SELECT label || ' ' || target FROM runtime ORDER BY label, target";

const PIECES: &str = "SELECT base || ' ' || num || ' ' || hex(bytes) FROM piece ORDER BY base, num";

const TEMPORARY: &str =
    "SELECT owner || ' ' || session || ' ' || target FROM temp_root ORDER BY owner, session, target";

/// The names of the tables.
pub const TABLES: &[&str] = &[NAMES];

/// The names of the tables, and all rows by the first schema. Each row is one text.
pub const FIRST: &[&str] = &[
    NAMES,
    META,
    OBJECTS,
    REFS,
    OUTS,
    PERMANENT,
    USER_ROOTS,
    PROFILES,
    GENERATIONS,
    RUNTIME,
];

/// All rows by the second schema.
pub const SECOND: &[&str] = &[
    NAMES,
    META,
    OBJECTS,
    REFS,
    OUTS,
    PERMANENT,
    USER_ROOTS,
    PROFILES,
    GENERATIONS,
    RUNTIME,
    PIECES,
];

/// All rows by the third schema.
pub const THIRD: &[&str] = &[
    NAMES,
    META,
    OBJECTS,
    REFS,
    OUTS,
    PERMANENT,
    USER_ROOTS,
    PROFILES,
    GENERATIONS,
    RUNTIME,
    PIECES,
    TEMPORARY,
];

/// What these queries give, a line for each row.
pub fn rows_of(
    alloc: Global,
    conn: &mut Connection<DiskStore>,
    queries: &[&str],
) -> Result<Vec<u8>, Fail> {
    let mut all = Vec::new(alloc);
    for query in queries {
        for row in conn.query_all(query, &[])? {
            let text: String = row.get(0)?;
            all.extend_from_slice(text.as_bytes())?;
            all.push(b'\n')?;
        }
    }
    Ok(all)
}
