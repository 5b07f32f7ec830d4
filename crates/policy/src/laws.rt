//! Laws of the definitions. The functions do nothing: what counts is that their contracts are proved.
ghost use Rattle.policy.specs.Faults.{FirstThatApplies};
ghost use Rattle.policy.specs.Laws.{LiveIsAskedLast, StrangersMayNotConnect, PlainIsForAllOthers, ReservedForTrusted};
ghost use Rattle.policy.specs.Laws.{ReservedForOwner, ForbiddenToAll, KeysHaveDefaults};

/// A text has settings if no key word applies to it, and is refused with the first that does, in the order of
/// `KeyWord`.
pub fn the_first_key_word_is_named()
    ensures { FirstThatApplies }
{}

/// The rule `Live`, the only one that needs the world, is tested last: to decide the others first, and then to look at
/// the world, gives the first rule that forbids.
pub fn live_is_asked_last()
    ensures { LiveIsAskedLast }
{}

/// Whatever a stranger asks is denied by `Connect`.
pub fn strangers_may_not_connect()
    ensures { StrangersMayNotConnect }
{}

/// A request that no rule but `Connect` is about is denied to strangers alone.
pub fn plain_is_for_all_others()
    ensures { PlainIsForAllOthers }
{}

/// Verdicts worked by hand, one for each side of each rule.
pub fn worked_verdicts()
    ensures trusted { ReservedForTrusted }
    ensures owner { ReservedForOwner }
    ensures all { ForbiddenToAll }
{}

/// A document without keys has each key's default.
pub fn keys_have_defaults()
    ensures { KeysHaveDefaults }
{}
