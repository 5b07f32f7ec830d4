//! Laws of rows with a fault, table by table: they aren't sound.
ghost use Rattle.tables_sql.specs.Contents.{Contents};
ghost use Rattle.model.specs.World.{Path};
ghost use Rattle.laws.specs.FaultyPieces.{ExcludesFaultyPieces, FaultyCutsAreUnsound};
ghost use Rattle.laws.specs.FaultyRoots.{
  FaultyGenerationsAreUnsound,
  FaultyPermanentAreUnsound,
  FaultyProfilesAreUnsound,
  FaultyRuntimeAreUnsound,
  FaultySessionsAreUnsound,
  FaultyUserRootsAreUnsound,
};
ghost use Rattle.laws.specs.FaultyRows.{
  ExcludesFaultyOutputs,
  ExcludesFaultyReferences,
  ExcludesFaultySettings,
  FaultyDerivationsAreUnsound,
  FaultyObjectsAreUnsound,
};

/// Without the two settings, with another one, or with rows in a table that the schema lacks, rows aren't sound.
pub fn faulty_settings_are_unsound()
    ensures { (c : Contents) → ExcludesFaultySettings c }
{}

/// Rows aren't sound if an object's path or deriver is no base name, its archive is none, its digest is of other bytes,
/// or its address is none, is another object's, or comes with a reference to itself.
pub fn faulty_objects_are_unsound()
    ensures { FaultyObjectsAreUnsound }
{}

/// Rows aren't sound if a reference belongs to no object or leads to none, or an object has more than 4,096.
pub fn faulty_references_are_unsound()
    ensures { (c : Contents) (p : Path) → ExcludesFaultyReferences c p }
{}

/// Outputs aren't sound that are of no object, or of one whose name doesn't end in `.drv`; nor is an object with such a
/// name that is no derivation's, or whose outputs aren't exactly those of its text that have a path.
pub fn faulty_outputs_are_unsound()
    ensures rows { (c : Contents) (p : Path) → ExcludesFaultyOutputs c p }
    ensures derivations { FaultyDerivationsAreUnsound }
{}

/// Further pieces aren't sound that are of no object, whose numbers don't go on from 1, that are empty or have more
/// than 65,536 bytes, or fewer before another; nor is an object's row with more than 65,536 bytes of an archive that is
/// cut, or fewer before a piece.
pub fn faulty_pieces_are_unsound()
    ensures pieces { (c : Contents) (p : Path) → ExcludesFaultyPieces c p }
    ensures rows { FaultyCutsAreUnsound }
{}

/// Rows aren't sound if a permanent or user root has an owner or name that isn't plain, a runtime label isn't 1 to 256
/// bytes of 33 to 126, or a target is no object.
pub fn faulty_roots_are_unsound()
    ensures permanent { FaultyPermanentAreUnsound }
    ensures user_roots { FaultyUserRootsAreUnsound }
    ensures runtime { FaultyRuntimeAreUnsound }
{}

/// Profiles aren't sound whose owner or name isn't plain, or whose current number is that of no generation; nor are
/// generations of no profile, with another number than 1 to 9,999, or whose target is no object.
pub fn faulty_profiles_are_unsound()
    ensures profiles { FaultyProfilesAreUnsound }
    ensures generations { FaultyGenerationsAreUnsound }
{}

/// Sessions aren't sound whose owner isn't plain, with another number than 1 to 4,194,304, or that keep no object.
pub fn faulty_sessions_are_unsound()
    ensures { FaultySessionsAreUnsound }
{}
