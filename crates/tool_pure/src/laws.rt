//! Laws of the definitions, each the contract of a function that does nothing.
ghost use Rattle.tool_pure.specs.Laws.{NoUserIsNoCaller, UnnamedIsRefused};

/// Without the name of a user there is no caller, whatever group is named, and `who` answers `BadCaller` if the
/// configuration has settings.
pub fn without_a_user_there_is_no_caller()
    ensures caller { NoUserIsNoCaller }
    ensures verdict { UnnamedIsRefused }
{}
