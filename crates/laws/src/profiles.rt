//! Laws of profiles.

ghost use Rattle.laws.specs.Generations.{DeletesGenerations, RollsBackAsSpecified, SetsAsSpecified};
ghost use Rattle.laws.specs.Generations.{SwitchesAsSpecified};

/// A profile request sets, makes current or deletes exactly the generation it asks for, and every other generation
/// stays.
pub fn profiles_change_exactly()
    ensures set { SetsAsSpecified }
    ensures back { RollsBackAsSpecified }
    ensures switch { SwitchesAsSpecified }
    ensures deletion { DeletesGenerations }
{}
