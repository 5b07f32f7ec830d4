//! The caller that a command line names.
ghost use Rattle.std.specs.Prelude.{◌≡◌, ◌⊎◌, IfOk, IfErr, Some, None, option_map};
ghost use Rattle.tool_pure.specs.Who.{caller_by};

use crate::stops::Stop;
use policy::Caller;
use report::{Failure, Refusal};
use std::alloc::Global;

/// The caller of these names.
///
/// # Errors
///
/// `BadCaller` if no user is named or a name isn't plain; `Memory` if memory was refused.
pub fn parse_caller(alloc: Global, user: Option<&str>, group: Option<&str>) -> Result<Caller, Stop>
    ensures ok { IfOk result
        (λ c. caller_by (option_map (λ s. s.now) user.entry) (option_map (λ s. s.now) group.entry) ≡ Some c) }
    ensures err { IfErr result (λ e. (e ≡ Stop.Failed Failure.Memory) ⊎ ((e ≡ Stop.Refused Refusal.BadCaller)
        × (caller_by (option_map (λ s. s.now) user.entry) (option_map (λ s. s.now) group.entry) ≡ None))) }
{
    let Some(name) = user else {
        return Err(Stop::Refused(Refusal::BadCaller));
    };
    let caller = Caller::new(alloc, name, group)?;
    Ok(caller)
}
