//! The rows of objects, some of which are read ahead by one query.

ghost use Rattle.std.specs.Prelude.{◌≡◌, ◌↔◌, Some, IfSome, IsTrue, string_bytes};
ghost use Rattle.std.specs.FinMap as finite;
ghost use Rattle.tables_sql.specs.Contents.{Contents};
ghost use Rattle.tables_rows.specs.Entries.{IsStored, stored_of};
ghost use Rattle.tables_rows.specs.Frames.{FindsInReads};
ghost use Rattle.tables_load_objects.specs.Loading.{MayReadFrom};
ghost use Rattle.tables_load_objects.specs.Rows.{AreStored};

use crate::source::Source;
use sqlite::{Alter, Connection};
use std::alloc::Global;
use std::collections::VecDeque;
use tables_rows::objects::Object;
use tables_rows::{Find, objects};
use tables_schema::Schema;
use tables_sql::failure::Failed;

/// How many objects one query reads. Where there are pieces, a row has at most 65,536 bytes of an archive.
const AHEAD: usize = 16;

/// The last base that is read together with this one. By the first schema a row has a whole archive, and is read alone.
fn last_with<'a>(schema: Schema, bases: &'a [String], base: &'a str) -> &'a str {
    if !schema.has_pieces() {
        return base;
    }
    let start = bases.partition_point(|other| other.as_str() < base);
    let (_, rest) = bases.split_at(start);
    match rest.get(AHEAD - 1).or(rest.last()) {
        Some(last) => last.as_str(),
        None => base,
    }
}

/// Reads the objects from this base on, where none is left of those that were read ahead.
fn fill<S: Alter>(
    alloc: Global,
    conn: &mut Connection<S>,
    source: &Source<'_>,
    ahead: &mut VecDeque<Object>,
    base: &str,
) -> Result<(), Failed>
    requires { MayReadFrom S.Store source.now ahead.old.items conn.old }
    ensures { FindsInReads S.Store conn.old conn.new result (λ c _. AreStored c ahead.new.items) }
{
    if !ahead.is_empty() {
        return Ok(());
    }
    let last = last_with(source.schema, source.bases, base);
    let found = objects::Between { first: base, last }.find(alloc, conn)?;
    *ahead = VecDeque::from_vec(found);
    Ok(())
}

fn is_of(object: &Object, base: &str) -> bool
    ensures { IsTrue result ↔ (string_bytes object.now.base ≡ base.now) }
{
    object.base.as_str() == base
}

/// The next of the objects that were read ahead, if it is the one of this base.
fn next_of(ahead: &mut VecDeque<Object>, base: &str) -> Option<Object>
    ensures found { (c : Contents) → AreStored c ahead.old.items
        → IfSome result
        (λ o. (string_bytes o.base ≡ base.now) × (finite.get c.objects base.now ≡ Some (stored_of o).1)) }
    ensures left { (c : Contents) → AreStored c ahead.old.items → AreStored c ahead.new.items }
{
    let Some(next) = ahead.pop_front() else {
        return None;
    };
    if !is_of(&next, base) {
        return None;
    }
    Some(next)
}

/// The object of a base, if there is one: the next of those that were read ahead, or one that is read alone.
pub(crate) fn object_at<S: Alter>(
    alloc: Global,
    conn: &mut Connection<S>,
    source: &Source<'_>,
    ahead: &mut VecDeque<Object>,
    base: &str,
) -> Result<Option<Object>, Failed>
    requires { MayReadFrom S.Store source.now ahead.old.items conn.old }
    ensures { FindsInReads S.Store conn.old conn.new result
        (λ c o. IsStored c.objects base.now o × AreStored c ahead.new.items) }
{
    fill(alloc, conn, source, ahead, base)?;
    if let Some(object) = next_of(ahead, base) {
        return Ok(Some(object));
    }
    let alone = objects::get(alloc, conn, base)?;
    Ok(alone)
}
