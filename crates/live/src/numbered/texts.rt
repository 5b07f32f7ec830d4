//! The texts of rows' paths in one list, so that a comparison reads memory twice and not four times.
ghost use Rattle.std.specs.Prelude.{IfOk};
ghost use Rattle.live.specs.Heads.{AreTexts};
ghost use Rattle.live.specs.Arguments.{rows_view};
ghost use Rattle.live.specs.Numbering.{paths_of};

use crate::numbered::rows::Row;
use std::alloc::{AllocError, Global};

/// The texts of all rows' paths.
pub(crate) fn texts_of<'a>(alloc: Global, rows: &[Row<'a>]) -> Result<Vec<&'a str>, AllocError>
    ensures { IfOk result (λ v. AreTexts (paths_of (rows_view rows.now)) v.items) }
{
    let mut texts = Vec::with_capacity(alloc, rows.len())?;
    for row in rows {
        texts.push(row.path.as_str())?;
    }
    Ok(texts)
}
