//! How many pages the database at a path has, by the headers of its file and of its log.
//!
//! The file isn't open yet, and none of what is read here is trusted: only the number of pages that are kept depends on
//! it. To close a file drops its locks, so this is done before it is opened. A pipe would wait for a writer: only
//! regular files are opened.

ghost use Rattle.std.specs.Prelude.{◌≤◌};

use std::fs::{self, File};
use std::io::{self, Read};
use std::os::unix::fs::FileExt;
use std::rt::HostRuntime;

/// The bytes of a page, in a file that `sqlite` makes.
const NEW_PAGE: u64 = 4096;

/// The bytes of a log's header.
const LOG_HEADER: u64 = 32;

/// The bytes before each page in the log.
const FRAME_HEADER: u64 = 24;

/// The size of a page of a database, which `sqlite` bounds.
#[derive(Clone, Copy)]
pub struct PageSize {
    /// The size in bytes: 512 to 65,536.
    pub bytes: u64,
    pub ghost least: { 512 ≤ bytes },
    pub ghost most: { bytes ≤ 65536 },
}

/// The measures of a database.
#[derive(Clone, Copy)]
pub struct Measured {
    /// The length of its file.
    pub len: u64,
    /// How many pages it has by its log, 0 where the log doesn't say.
    pub logged: u32,
    /// The size of a page.
    pub page: PageSize,
}

/// What the header of a file says of the bytes of a page.
fn stated_page(file: &mut File) -> io::Result<u64> {
    let mut head = [0; 18];
    file.read_exact(&mut head)?;
    Ok(u64::from(u16::from_be_bytes([head[16], head[17]])))
}

/// The length of the file at a path, and the bytes of a page. Where they can't be read, as of a file that isn't there
/// yet, no bytes in pages of a new file.
fn measure_file(rt: &HostRuntime, path: &str) -> io::Result<(u64, u64)> {
    let found = fs::metadata(rt, path)?;
    if !found.is_file() {
        return Ok((0, NEW_PAGE));
    }
    Ok((found.len(), stated_page(&mut File::open(rt, path)?)?))
}

/// The size of a page as `sqlite` reads it: 1 means 65,536, and what is no size of a page means that of a new file.
fn page_of(stated: u64) -> PageSize {
    let bytes = match stated {
        1 => 65536,
        512..=32768 => stated,
        _ => NEW_PAGE,
    };
    PageSize { bytes }
}

/// How many pages the last commit in a log left, which has room for `frames` frames; 0 where it has none. The frames
/// that were written since the log was last copied into the file have the salts of its header, and come before older
/// ones.
fn pages_in(log: &File, frames: u32, page: PageSize) -> io::Result<u32> {
    let mut head = [0; 24];
    log.read_exact_at(&mut head, 0)?;
    let (mut new, mut rest, mut pages) = (0, frames, 0);
    while new < rest {
        let middle = new + (rest - new) / 2;
        let mut frame = [0; 16];
        log.read_exact_at(
            &mut frame,
            LOG_HEADER + u64::from(middle) * (page.bytes + FRAME_HEADER),
        )?;
        if frame[8..] == head[16..] {
            pages = u32::from_be_bytes([frame[4], frame[5], frame[6], frame[7]]);
            new = middle + 1;
        } else {
            rest = middle;
        }
    }
    Ok(pages)
}

/// How many pages the file at a path has by its log, which lies next to the file that a link leads to.
fn measure_log(rt: &HostRuntime, path: &str, page: PageSize) -> io::Result<u32> {
    let file = fs::canonicalize(rt, path)?;
    let name = format!(in rt.alloc(); "{}-wal", file.as_str())?;
    let found = fs::metadata(rt, name.as_str())?;
    if !found.is_file() {
        return Ok(0);
    }
    let frames = u32::try_from(found.len() / (page.bytes + FRAME_HEADER)).unwrap_or(u32::MAX);
    pages_in(&File::open(rt, name.as_str())?, frames, page)
}

/// What is found of the database at a path.
pub fn measure(rt: &HostRuntime, path: &str) -> Measured {
    let (len, stated) = measure_file(rt, path).unwrap_or((0, NEW_PAGE));
    let page = page_of(stated);
    let logged = measure_log(rt, path, page).unwrap_or(0);
    Measured { len, logged, page }
}
