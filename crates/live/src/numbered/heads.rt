//! The first bytes of paths as numbers, which a search compares in place of paths.
ghost use Rattle.std.specs.Prelude.{◌≡◌, IfOk};
ghost use Rattle.live.specs.Heads.{AreHeads, IsBytes, head_of as head};
ghost use Rattle.live.specs.Arguments.{rows_view};
ghost use Rattle.live.specs.Numbering.{paths_of};

use crate::numbered::rows::Row;
use paths::StorePath;
use std::alloc::{AllocError, Global};

/// The first eight bytes of a path as a number.
pub(crate) fn head_of(path: &StorePath) -> u64
    ensures value { result ≡ head path.now }
    ensures bytes { IsBytes path.now }
{
    let bytes = path.as_str().as_bytes();
    u64::from(bytes[0]) * 0x100_0000_0000_0000
        + u64::from(bytes[1]) * 0x1_0000_0000_0000
        + u64::from(bytes[2]) * 0x100_0000_0000
        + u64::from(bytes[3]) * 0x1_0000_0000
        + u64::from(bytes[4]) * 0x100_0000
        + u64::from(bytes[5]) * 0x1_0000
        + u64::from(bytes[6]) * 0x100
        + u64::from(bytes[7])
}

/// The heads of all rows' paths.
pub(crate) fn heads_of(alloc: Global, rows: &[Row]) -> Result<Vec<u64>, AllocError>
    ensures { IfOk result (λ v. AreHeads (paths_of (rows_view rows.now)) v.items) }
{
    let mut heads = Vec::new(alloc);
    for row in rows {
        heads.push(head_of(row.path))?;
    }
    Ok(heads)
}
