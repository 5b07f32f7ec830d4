//! Calls over disks in memory that stop, one of them at each of its calls in turn.
mod cases;
mod course;
mod disks;
mod migrations;
mod requests;
mod rows;
mod texts;

use crate::stops::cases::{Case, survives};
use crate::stops::course::make_run;
use crate::stops::disks::{Contents, files_of, is_stopped};
use crate::stops::requests::Step;
use std::alloc::Global;
use std::test::Fail;

/// Makes calls over files of which one stops, at its first call, then at its second and so on, until a run meets no
/// stop. Returns how many runs met one.
fn stop_at_each(alloc: Global, case: &Case, is_log: bool) -> Result<u64, Fail> {
    for calls in 0..100_000u64 {
        let (log, db) = if is_log {
            (calls, u64::MAX)
        } else {
            (u64::MAX, calls)
        };
        let files = files_of(alloc, &case.start.log, &case.start.db, log, db)?;
        let mut run = make_run(alloc, files, case.settings, case.steps)?;
        if !is_stopped(&mut run.files) {
            return if run.reported.as_slice() == case.reported.as_bytes() {
                Ok(calls)
            } else {
                Err(Fail::new("another answer"))
            };
        }
        survives(alloc, case, run)?;
    }
    Err(Fail::new("each run meets a stop"))
}

/// Stops one of the two files, then the other. Fails if one of them is never called.
fn stop_both(alloc: Global, case: &Case) -> Result<(), Fail> {
    for is_log in [true, false] {
        if stop_at_each(alloc, case, is_log)? == 0 {
            return Err(Fail::new("no call of a file"));
        }
    }
    Ok(())
}
