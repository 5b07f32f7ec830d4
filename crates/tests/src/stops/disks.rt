//! Files over disks in memory, each of which stops after some calls.
use sqlite::{Connection, FileStore, Options};
use sqlite_disk::{Crash, Disk, Files, Fuse, Memory};
use std::alloc::{AllocError, Global};
use std::test::Fail;
use store::Failed;

/// The files of a database.
pub type Disks = Files<Fuse<Memory>>;

/// The store of a connection over them.
pub type DiskStore = FileStore<Fuse<Memory>>;

/// The contents of the two files.
#[derive(Drop)]
pub struct Contents {
    pub log: Vec<u8>,
    pub db: Vec<u8>,
}

/// A disk that holds these bytes.
fn disk_of(alloc: Global, bytes: &[u8]) -> Result<Memory, Fail> {
    let mut disk = Memory::new(alloc);
    disk.write_at(0, bytes)?;
    disk.sync()?;
    Ok(disk)
}

/// Files that hold these bytes, and stop after this many calls.
pub fn files_of(
    alloc: Global,
    log: &[u8],
    db: &[u8],
    log_calls: u64,
    db_calls: u64,
) -> Result<Disks, Fail> {
    let log = disk_of(alloc, log)?;
    let db = disk_of(alloc, db)?;
    Ok(Files {
        log: Fuse::new(log, log_calls),
        db: Fuse::new(db, db_calls),
    })
}

/// The present contents of the files.
pub fn held_in(alloc: Global, files: &Disks) -> Result<Contents, AllocError> {
    Ok(Contents {
        log: Vec::from_slice(alloc, files.log.inner().bytes())?,
        db: Vec::from_slice(alloc, files.db.inner().bytes())?,
    })
}

/// Makes both files lose what wasn't synced.
pub fn crash(files: &mut Disks) {
    files.log.crash();
    files.db.crash();
}

/// Whether a file answers no more.
fn is_blown(disk: &mut Fuse<Memory>) -> bool {
    !disk.may_be_used() || disk.len().is_err()
}

/// Whether one of them stopped.
pub fn is_stopped(files: &mut Disks) -> bool {
    is_blown(&mut files.log) || is_blown(&mut files.db)
}

/// Opens the files. If that fails, they are returned, with the failure.
pub fn connect(alloc: Global, files: Disks) -> Result<Connection<DiskStore>, (Disks, Failed)> {
    if !files.may_be_used() {
        return Err((files, Failed::Disk));
    }
    match Connection::open_files(alloc, files, Options::new(1)) {
        Ok(conn) => Ok(conn),
        Err((error, left)) => Err((left.into_files(), Failed::from(error))),
    }
}

/// The files of a connection, which is closed.
pub fn release_files(conn: Connection<DiskStore>) -> Disks {
    conn.into_store().close()
}

/// The files of a connection whose log is copied into the database file.
pub fn close(conn: Connection<DiskStore>) -> Disks {
    match conn.close_files() {
        Ok(files) => files,
        Err((_, store)) => store.close(),
    }
}
