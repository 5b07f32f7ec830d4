//! Laws of the definitions, each the contract of a function that does nothing.
ghost use Rattle.tool.specs.Laws.{CallersOwn, NamedOwnersOwn};

/// A root, profile or session whose owner isn't named is the caller's. One whose owner is named is that owner's.
pub fn owners_are_callers_unless_named()
    ensures unnamed { CallersOwn }
    ensures named { NamedOwnersOwn }
{}
