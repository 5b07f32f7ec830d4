//! How many pages of a file a connection keeps in memory, by how many it has.
//!
//! `sqlite` keeps page `n` at the place `n % places`, and reads a page that isn't there from the disk, with a digest of
//! its bytes. When it opens a file it looks up the row of each entry of each index, in the order of the index, so with
//! fewer places than pages it reads most pages many times. With a place for each page it reads each one once. A file
//! that is too long for that is no better off with some more places, since whoever goes through all pages in turn finds
//! none of them again.

ghost use Rattle.std.specs.Prelude.{◌≡◌, ℕ, IfOk, IfErr};
ghost use Rattle.tables_recognize.specs.Pages.{cached_pages};

use crate::page_count::{Measured, measure};
use sqlite::{Error, ErrorCode, Options};
use std::hash::{BuildHasher, RandomState};
use std::rt::HostRuntime;

/// How many bytes of pages are always kept: 2,000 pages of a file that `sqlite` makes. Each place takes its
/// memory, and some microseconds, when the file is opened, whether a page comes to lie in it or not.
const LEAST_BYTES: u64 = 8_192_000;

/// How many bytes of pages are kept at most: 256 MiB.
const MOST_BYTES: u64 = 268_435_456;

/// How many pages a file may grow by before two of them share a place.
const ROOM: u64 = 256;

/// How many pages a transaction holds before it sends them to the log ahead of its commit, with no sync. `sqlite` keeps
/// the room of two such lots.
const SPILL_PAGES: usize = 1000;

/// How many pages the log holds before it is copied into the file.
const CHECKPOINT_FRAMES: usize = 1000;

/// How many pages of a database are kept: all of them where that is within the bounds. After a large transaction its
/// log has more than its file has.
fn cached_pages(found: &Measured) -> usize
    ensures { result ≡ cached_pages found.now.len found.now.logged found.now.page.bytes }
{
    let page = found.page.bytes;
    let pages = (found.len / page).max(u64::from(found.logged)) + ROOM;
    let least = LEAST_BYTES / page;
    let kept = if pages <= MOST_BYTES / page {
        pages.max(least)
    } else {
        least
    };
    kept as usize
}

/// How a connection to the file at a path keeps its pages and its log. The file isn't open yet.
///
/// # Errors
///
/// The system gives no random number.
pub fn options(rt: &HostRuntime, path: &str) -> Result<Options, Error>
    ensures kept { IfOk result
        (λ it. (found : Measured) × (it.cache_pages ≡ cached_pages found.len found.logged found.page.bytes)) }
    ensures log { IfOk result (λ it. (it.spill_pages ≡ 1000) × (it.checkpoint_frames ≡ 1000)) }
    ensures cause { IfErr result (λ e. e ≡ Error.SqliteFailure ErrorCode.CannotOpen) }
{
    let seed = match RandomState::new(rt) {
        Ok(state) => state.hash_one(&0u8),
        Err(_) => return Err(Error::SqliteFailure(ErrorCode::CannotOpen)),
    };
    let mut options = Options::new(seed);
    options.cache_pages = cached_pages(&measure(rt, path));
    options.spill_pages = SPILL_PAGES;
    options.checkpoint_frames = CHECKPOINT_FRAMES;
    Ok(options)
}
