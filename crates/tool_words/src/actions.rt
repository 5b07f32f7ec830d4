//! What values stand for, and which of them don't go together.
ghost use Rattle.std.specs.Prelude.{◌≡◌, IfOk, IfErr, Ok, Err};
ghost use Rattle.tool_words.specs.Actions as action;
ghost use Rattle.tool_words.specs.Actions.{on_profile, on_session, limit, served};
ghost use Rattle.tool_words.specs.Asked.{optional_text, on_profile_view, on_session_view, unroot_view};

use crate::error::{Acting, UsageFault};
use crate::line::{ServeArguments, UnrootArguments, Unrooted};
use paths::numbers::generation;

/// What happens to a profile. Generations are numbered from 1 to 9,999; 0 means a text that is no such number.
#[derive(Debug, Drop)]
pub enum ProfileAction<'a> {
    /// A path becomes its current generation.
    Set(&'a str),
    /// The generation below the current one becomes current.
    Rollback,
    /// The generation of this number becomes current.
    Switch(u32),
    /// Delete the generation of this number.
    Delete(u32),
}

/// What happens to a session's temporary roots.
#[derive(Debug, Drop)]
pub enum TempAction<'a> {
    /// The path becomes a temporary root of the session.
    Add(&'a str),
    /// All temporary roots of the session are deleted.
    End,
}

/// An ACTION of `profile`, with its VALUE.
pub(crate) fn profile_action<'a>(
    action: &str,
    value: Option<&'a str>,
) -> Result<ProfileAction<'a>, UsageFault>
    ensures ok { IfOk result (λ a. on_profile action.now (optional_text value.entry) ≡ Ok (on_profile_view a)) }
    ensures err { IfErr result (λ f. on_profile action.now (optional_text value.entry) ≡ Err f) }
{
    match action {
        "set" => match value {
            Some(path) => Ok(ProfileAction::Set(path)),
            None => Err(UsageFault::MissingValue(Acting::Profile)),
        },
        "rollback" => match value {
            Some(_) => Err(UsageFault::ExtraValue(Acting::Profile)),
            None => Ok(ProfileAction::Rollback),
        },
        "switch" => match value {
            Some(number) => Ok(ProfileAction::Switch(generation(number))),
            None => Err(UsageFault::MissingValue(Acting::Profile)),
        },
        "delete" => match value {
            Some(number) => Ok(ProfileAction::Delete(generation(number))),
            None => Err(UsageFault::MissingValue(Acting::Profile)),
        },
        _ => Err(UsageFault::UnknownAction(Acting::Profile)),
    }
}

/// An ACTION of `temp`, with its PATH.
pub(crate) fn temp_action<'a>(
    action: &str,
    path: Option<&'a str>,
) -> Result<TempAction<'a>, UsageFault>
    ensures ok { IfOk result (λ a. on_session action.now (optional_text path.entry) ≡ Ok (on_session_view a)) }
    ensures err { IfErr result (λ f. on_session action.now (optional_text path.entry) ≡ Err f) }
{
    match action {
        "add" => match path {
            Some(path) => Ok(TempAction::Add(path)),
            None => Err(UsageFault::MissingValue(Acting::Temp)),
        },
        "end" => match path {
            Some(_) => Err(UsageFault::ExtraValue(Acting::Temp)),
            None => Ok(TempAction::End),
        },
        _ => Err(UsageFault::UnknownAction(Acting::Temp)),
    }
}

/// The owner of the root that is dropped.
pub(crate) fn unrooted<'a>(
    permanent: bool,
    owner: Option<&'a str>,
    name: &'a str,
) -> Result<UnrootArguments<'a>, UsageFault>
    ensures ok { IfOk result
        (λ r. action.unrooted permanent (optional_text owner.entry) name.entry.now
        ≡ Ok (unroot_view r.root r.name.now)) }
    ensures err { IfErr result (λ f. action.unrooted permanent (optional_text owner.entry) name.entry.now ≡ Err f) }
{
    let root = match (permanent, owner) {
        (true, Some(_)) => return Err(UsageFault::OwnerOfPermanent),
        (true, None) => Unrooted::Permanent,
        (false, owner) => Unrooted::User(owner),
    };
    Ok(UnrootArguments { root, name })
}

/// After how many bytes a collection may stop.
pub(crate) fn limit(text: Option<&str>) -> Result<Option<u64>, UsageFault>
    ensures ok { IfOk result (λ n. limit (optional_text text.entry) ≡ Ok n) }
    ensures err { IfErr result (λ f. limit (optional_text text.entry) ≡ Err f) }
{
    let Some(text) = text else {
        return Ok(None);
    };
    match paths::numbers::decimal(text) {
        Some(bytes) => Ok(Some(bytes)),
        None => Err(UsageFault::BadLimit),
    }
}

/// Where requests come from.
pub(crate) fn served(
    port: Option<u16>,
    connections: Option<u32>,
) -> Result<ServeArguments, UsageFault>
    ensures ok { IfOk result (λ s. served port connections ≡ Ok s) }
    ensures err { IfErr result (λ f. served port connections ≡ Err f) }
{
    match (port, connections) {
        (None, None) => Ok(ServeArguments::Streams),
        (None, Some(_)) => Err(UsageFault::ConnectionsWithoutPort),
        (Some(port), None) => Ok(ServeArguments::Port(port, 1)),
        (Some(port), Some(connections)) => Ok(ServeArguments::Port(port, connections)),
    }
}
