//! The first rule that a request breaks.
ghost use Rattle.std.specs.Prelude.{◌≡◌, if◌then◌else◌};
ghost use Rattle.std.specs.Str.{bytes_eq};
ghost use Rattle.policy.specs.Operation.{operation_of};
ghost use Rattle.policy.specs.Rules.{first_broken};
ghost use Rattle.policy.specs.declared.kinds.Class.TheVariants.{Allowed as allowed, Trusted as trusted};

use crate::caller::Caller;
use crate::kinds::{Class, Op, Rule};

/// A request that names an owner is for that owner.
fn own(caller: &Caller, owner: &str) -> Option<Rule>
    ensures { result ≡ (if bytes_eq owner.now caller.now.name then None else Some Rule.OwnRoot) }
{
    if owner == caller.name() {
        None
    } else {
        Some(Rule::OwnRoot)
    }
}

/// The flag to ignore liveness is for nobody.
fn heeding(ignore_liveness: bool) -> Option<Rule>
    ensures { result ≡ (if ignore_liveness then Some Rule.NoIgnoreLiveness else None) }
{
    if ignore_liveness {
        Some(Rule::NoIgnoreLiveness)
    } else {
        None
    }
}

/// The first rule that forbids what an allowed caller asks.
fn forbidden_to_allowed(caller: &Caller, op: &Op<'_>) -> Option<Rule>
    ensures { result ≡ first_broken allowed caller.now (operation_of op.now) }
{
    match *op {
        Op::Plain => None,
        Op::Import { has_address } => if has_address {
            None
        } else {
            Some(Rule::TrustedImport)
        },
        Op::SetPermanent | Op::DropPermanent => Some(Rule::TrustedPermanentRoot),
        Op::ReplaceRuntime => Some(Rule::TrustedRuntimeRoots),
        Op::SetUserRoot(owner) | Op::DropUserRoot(owner) => own(caller, owner),
        Op::SetProfile(owner) | Op::Rollback(owner) => own(caller, owner),
        Op::Switch(owner) | Op::DeleteGeneration(owner) => own(caller, owner),
        Op::AddTemp(owner) | Op::EndSession(owner) => own(caller, owner),
        Op::Collect { ignore_liveness } | Op::Delete { ignore_liveness } => {
            heeding(ignore_liveness)
        }
    }
}

/// The first rule that forbids what a trusted caller asks, who may drop what others own.
fn forbidden_to_trusted(caller: &Caller, op: &Op<'_>) -> Option<Rule>
    ensures { result ≡ first_broken trusted caller.now (operation_of op.now) }
{
    match *op {
        Op::SetUserRoot(owner) | Op::SetProfile(owner) => own(caller, owner),
        Op::Rollback(owner) | Op::Switch(owner) | Op::AddTemp(owner) => own(caller, owner),
        Op::Collect { ignore_liveness } | Op::Delete { ignore_liveness } => {
            heeding(ignore_liveness)
        }
        _ => None,
    }
}

/// The first rule other than `Live` that forbids what a caller of a class asks, if one does. Takes
/// no memory.
///
/// ```rust
/// use policy::{Caller, Class, Op, Rule};
///
/// let ann = Caller::new(alloc, "ann", None)?;
/// assert_eq!(rt; policy::decide(Class::Stranger, &ann, &Op::Plain), Some(Rule::Connect));
/// assert_eq!(rt; policy::decide(Class::Trusted, &ann, &Op::SetUserRoot("bob")), Some(Rule::OwnRoot));
/// assert_eq!(rt; policy::decide(Class::Trusted, &ann, &Op::DropUserRoot("bob")), None);
/// ```
pub fn decide(class: Class, caller: &Caller, op: &Op<'_>) -> Option<Rule>
    ensures { result ≡ first_broken class caller.now (operation_of op.now) }
{
    match class {
        Class::Stranger => Some(Rule::Connect),
        Class::Allowed => forbidden_to_allowed(caller, op),
        Class::Trusted => forbidden_to_trusted(caller, op),
    }
}
