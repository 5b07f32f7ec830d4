//! Calls over files, up to the first that fails.

ghost use Rattle.std.specs.Prelude.{◌≡◌, IfOk};

use crate::stops::disks::{DiskStore, Disks, close, connect, release_files};
use crate::stops::requests::{Step, request_of};
use crate::stores::push_reply;
use paths::StoreDir;
use policy::{Caller, Config, store_dir};
use report::failure_line;
use sqlite::Connection;
use std::alloc::Global;
use std::test::Fail;
use store::{Failed, Reply, Store};
use tables::{Cause, Tables, Unadopted, adopt};

/// How many calls were answered, and what they left.
#[derive(Drop)]
pub struct Run {
    /// How many of them were answered, and the opening before them.
    pub made: usize,
    /// The replies as text.
    pub reported: Vec<u8>,
    /// The files, after the calls.
    pub files: Disks,
}

/// Opens a connection as a store. If that fails, the files are returned, with the failure.
fn adopt_connection(
    alloc: Global,
    conn: Connection<DiskStore>,
    dir: &StoreDir,
) -> Result<Tables<DiskStore>, (Disks, Option<Failed>)>
    ensures { IfOk result (λ t. t.dir ≡ dir.now) }
{
    if !conn.is_autocommit() {
        return Err((release_files(conn), None));
    }
    match adopt(alloc, conn, dir) {
        Ok(tables) => Ok(tables),
        Err(unadopted) => {
            let Unadopted { conn, cause } = unadopted;
            let failure = match cause {
                Cause::Failed(failure) => Some(failure),
                _ => None,
            };
            Err((release_files(conn), failure))
        }
    }
}

/// Opens files as a store. If that fails, they are returned, with the failure.
pub fn open(
    alloc: Global,
    files: Disks,
    config: Config,
) -> Result<Store<DiskStore>, (Disks, Option<Failed>)> {
    let conn = match connect(alloc, files) {
        Ok(conn) => conn,
        Err((files, failure)) => return Err((files, Some(failure))),
    };
    let tables = adopt_connection(alloc, conn, store_dir(&config))?;
    Ok(Store::new(alloc, config, tables))
}

/// Makes calls up to the first that fails, and gives how many were made before it.
fn make_calls(
    alloc: Global,
    store: &mut Store<DiskStore>,
    steps: &[Step],
    reported: &mut Vec<u8>,
) -> Result<usize, Fail> {
    let dir = StoreDir::parse(alloc, "/nix/store")?;
    let caller = Caller::new(alloc, "ann", None)?;
    for at in 0..steps.len() {
        let request = request_of(alloc, &steps[at])?;
        let reply = store.call(&caller, request);
        let is_failed = matches!(&reply, Reply::Failed(_));
        push_reply(alloc, &dir, reply, reported)?;
        if is_failed {
            return Ok(at);
        }
    }
    Ok(steps.len())
}

/// The line of a failure that stopped an opening.
fn push_failure(failure: Option<Failed>, reported: &mut Vec<u8>) -> Result<(), Fail> {
    match failure {
        Some(failure) => Ok(reported.extend_from_slice(failure_line(failure).as_bytes())?),
        None => Err(Fail::new("the files hold no store")),
    }
}

/// Opens files and makes calls, up to the first that fails. Files that didn't fail are closed.
pub fn make_run(alloc: Global, files: Disks, settings: &[u8], steps: &[Step]) -> Result<Run, Fail> {
    let config = Config::from_toml(alloc, settings)?;
    let mut reported = Vec::new(alloc);
    match open(alloc, files, config) {
        Ok(mut store) => {
            let made = make_calls(alloc, &mut store, steps, &mut reported);
            let conn = store.release().release();
            let made = made?;
            let files = if made == steps.len() {
                close(conn)
            } else {
                release_files(conn)
            };
            Ok(Run {
                made: made.saturating_add(1),
                reported,
                files,
            })
        }
        Err((files, failure)) => {
            push_failure(failure, &mut reported)?;
            Ok(Run {
                made: 0,
                reported,
                files,
            })
        }
    }
}
