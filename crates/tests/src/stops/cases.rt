//! What is left after a stop.
use crate::libraries::archives::prefix;
use crate::stops::course::{Run, make_run, open};
use crate::stops::disks::{Contents, connect, crash, files_of, held_in};
use crate::stops::requests::Step;
use crate::stops::texts::{THIRD, rows_of};
use policy::Config;
use std::alloc::Global;
use std::test::Fail;

/// Files, the calls on their store, and the results if nothing stops.
#[derive(Drop)]
pub struct Case {
    /// The contents of the files.
    pub start: Contents,
    /// Queries for their rows before they are opened as a store.
    pub queries: &'static [&'static str],
    /// The rows that these queries give.
    pub earlier: Vec<u8>,
    pub settings: &'static [u8],
    pub steps: &'static [Step],
    /// The replies as text.
    pub reported: &'static str,
    /// All rows before the opening, as an opening leaves them; after it; and after each call.
    pub worlds: Vec<Vec<u8>>,
}

/// The line of a call that a stop met.
const FAILED: &[u8] = b"failed: disk\n";

/// All rows of the store that files hold. They are opened, and then nothing is asked.
fn world_of(alloc: Global, log: &[u8], db: &[u8], settings: &[u8]) -> Result<Vec<u8>, Fail> {
    let config = Config::from_toml(alloc, settings)?;
    let files = files_of(alloc, log, db, u64::MAX, u64::MAX)?;
    match open(alloc, files, config) {
        Ok(store) => {
            let mut conn = store.release().release();
            rows_of(alloc, &mut conn, THIRD)
        }
        Err(_) => Err(Fail::new("the store isn't opened again")),
    }
}

/// The rows that files hold, which aren't opened as a store.
pub fn earlier_of(alloc: Global, held: &Contents, queries: &[&str]) -> Result<Vec<u8>, Fail> {
    let files = files_of(alloc, &held.log, &held.db, u64::MAX, u64::MAX)?;
    match connect(alloc, files) {
        Ok(mut conn) => rows_of(alloc, &mut conn, queries),
        Err(_) => Err(Fail::new("the files aren't opened")),
    }
}

/// All rows before the opening, after it, and after each call.
fn worlds_of(
    alloc: Global,
    start: &Contents,
    settings: &[u8],
    steps: &[Step],
) -> Result<Vec<Vec<u8>>, Fail> {
    let mut worlds = Vec::new(alloc);
    worlds.push(world_of(alloc, &start.log, &start.db, settings)?)?;
    for made in 0..=steps.len() {
        let files = files_of(alloc, &start.log, &start.db, u64::MAX, u64::MAX)?;
        let run = make_run(alloc, files, settings, &steps[..made])?;
        let held = held_in(alloc, &run.files)?;
        worlds.push(world_of(alloc, &held.log, &held.db, settings)?)?;
    }
    Ok(worlds)
}

/// What is asked of the store that files hold.
pub fn case_of(
    alloc: Global,
    start: Contents,
    queries: &'static [&'static str],
    settings: &'static [u8],
    steps: &'static [Step],
    reported: &'static str,
) -> Result<Case, Fail> {
    let earlier = earlier_of(alloc, &start, queries)?;
    let worlds = worlds_of(alloc, &start, settings, steps)?;
    Ok(Case {
        start,
        queries,
        earlier,
        settings,
        steps,
        reported,
        worlds,
    })
}

/// Whether rows are those at a place of the worlds.
fn is_world(case: &Case, place: usize, rows: &[u8]) -> bool {
    match case.worlds.get(place) {
        Some(world) => world.as_slice() == rows,
        None => false,
    }
}

/// Whether the replies before the stop are those without one, and the last says that the disk failed.
fn is_answered(case: &Case, run: &Run) -> bool {
    let reported = run.reported.as_slice();
    let all = case.reported.as_bytes();
    if run.made > case.steps.len() {
        return reported == all;
    }
    reported.ends_with(FAILED)
        && all.starts_with(prefix(reported, reported.len().saturating_sub(FAILED.len())))
}

/// Files in which a stop fell into the opening hold what they held, or what the opening leaves.
fn is_begun(alloc: Global, case: &Case, held: &Contents) -> Result<bool, Fail> {
    if earlier_of(alloc, held, case.queries)? == case.earlier {
        return Ok(true);
    }
    Ok(is_world(case, 0, &earlier_of(alloc, held, THIRD)?))
}

/// Whether files that a stop left hold the store before the call that met it, or that of its done case.
fn is_kept(alloc: Global, case: &Case, made: usize, held: &Contents) -> Result<(), Fail> {
    if made == 0 && !is_begun(alloc, case, held)? {
        return Err(Fail::new("neither what was there nor a store"));
    }
    let world = world_of(alloc, &held.log, &held.db, case.settings)?;
    if is_world(case, made, &world) || is_world(case, made.saturating_add(1), &world) {
        Ok(())
    } else {
        Err(Fail::new("another store"))
    }
}

/// The contents of two files: the bytes of the log, and those of the database file.
fn held_of(alloc: Global, log: &[u8], db: &[u8]) -> Result<Contents, Fail> {
    Ok(Contents {
        log: Vec::from_slice(alloc, log)?,
        db: Vec::from_slice(alloc, db)?,
    })
}

/// What was answered before a stop is in the files, whether or not each of them loses what it hadn't synced.
pub fn survives(alloc: Global, case: &Case, mut run: Run) -> Result<(), Fail> {
    if !is_answered(case, &run) {
        return Err(Fail::new("another answer before a stop"));
    }
    let kept = held_in(alloc, &run.files)?;
    crash(&mut run.files);
    let lost = held_in(alloc, &run.files)?;
    is_kept(alloc, case, run.made, &kept)?;
    is_kept(alloc, case, run.made, &lost)?;
    is_kept(alloc, case, run.made, &held_of(alloc, &kept.log, &lost.db)?)?;
    is_kept(alloc, case, run.made, &held_of(alloc, &lost.log, &kept.db)?)
}
