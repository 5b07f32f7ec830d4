//! The caller that a head names.
ghost use Rattle.std.specs.Prelude.{◌≡◌, IfOk, Err, Some, None, option_map};
ghost use Rattle.wire_server.specs.Fields.{fields_at};
ghost use Rattle.wire_server.specs.Callers.{caller_in, named};

use crate::fields::{HeadFields, Values, values_of};
use policy::{Caller, CallerError};
use std::alloc::Global;
use std::str;

/// The caller of a name and a group, as bytes.
fn caller_named(alloc: Global, user: &[u8], group: Option<&str>) -> Result<Caller, CallerError>
    ensures ok { IfOk result (λ c. named user.now (option_map (λ g. g.now) group.entry) ≡ Some c) }
    ensures bad { result ≡ Err CallerError.BadCaller → named user.now (option_map (λ g. g.now) group.entry) ≡ None }
{
    match str::from_utf8(user) {
        Ok(user) => Caller::new(alloc, user, group),
        Err(_) => Err(CallerError::BadCaller),
    }
}

/// The caller that a head names: exactly one field `store-user`, and at most one `store-group`, both plain names.
///
/// # Errors
///
/// `BadCaller` if and only if the head names no caller; `Memory` if memory was refused.
pub fn read_caller(alloc: Global, fields: &HeadFields<'_>) -> Result<Caller, CallerError>
    ensures ok { IfOk result (λ c. caller_in (fields_at fields.now.buf.now fields.now.head.now) ≡ Some c) }
    ensures bad { result ≡ Err CallerError.BadCaller
        → caller_in (fields_at fields.now.buf.now fields.now.head.now) ≡ None }
{
    let Values::One(user) = values_of(fields, b"store-user") else {
        return Err(CallerError::BadCaller);
    };
    match values_of(fields, b"store-group") {
        Values::None => caller_named(alloc, user, None),
        Values::One(group) => match str::from_utf8(group) {
            Ok(group) => caller_named(alloc, user, Some(group)),
            Err(_) => Err(CallerError::BadCaller),
        },
        Values::More => Err(CallerError::BadCaller),
    }
}
