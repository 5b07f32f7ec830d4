//! The memory that the process held.

use std::{fs, io};

/// Prints the most memory that the process has held so far, as Linux reports it: `VmHWM: N kB`.
pub fn peak(rt: &HostRuntime) -> io::Result<()> {
    let status = fs::read_to_string(rt, "/proc/self/status")?;
    for line in status.as_str().lines() {
        if line.starts_with("VmHWM:") {
            println!(rt; "{line}")?;
        }
    }
    Ok(())
}
