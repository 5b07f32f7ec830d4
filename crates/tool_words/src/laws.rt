//! Laws of the definitions. The functions do nothing: what counts is that their contracts are proved.
ghost use Rattle.tool_words.specs.Defaults.{OptionsAreNone, CollectsAll, HeedsLiveness, ServesStreams, ServesOne};
ghost use Rattle.tool_words.specs.Defaults.{RootsAreUsers, OwnersAreNone, ReferencesAreNone};

/// A command line without options names no file, no configuration and no caller. A collection has no limit, and
/// liveness counts. The standard streams are served, and one connection of a port. A root is a user's, no owner is
/// named, and an object has no references.
pub fn arguments_have_defaults()
    ensures options { OptionsAreNone }
    ensures limit { CollectsAll }
    ensures liveness { HeedsLiveness }
    ensures streams { ServesStreams }
    ensures connections { ServesOne }
    ensures roots { RootsAreUsers }
    ensures owners { OwnersAreNone }
    ensures references { ReferencesAreNone }
{}
