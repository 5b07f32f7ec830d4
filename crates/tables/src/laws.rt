//! A law of the definitions: the contract of a function that does nothing.

ghost use Rattle.tables.specs.Opening.{RefusesTheRest};

/// A database is refused as no store exactly where it is neither opened as the store of some directory nor given new
/// tables.
pub fn no_store_is_the_rest()
    ensures { RefusesTheRest }
{}
