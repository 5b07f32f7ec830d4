//! Laws of the texts: each is the contract of a function that does nothing.
ghost use Rattle.std.specs.Prelude.{IsTrue, List, map, ℕ, ◌≡◌};
ghost use Rattle.std.specs.List.{range_with_len};
ghost use Rattle.model.specs.Refusals.{number};
ghost use Rattle.report.specs.Laws.{
  ANewStoreUsesNothing,
  ListingsDiffer,
  RefusalsAreLines,
  RefusalsDiffer,
  StopsAreLines,
  omits,
  refusals,
};
ghost use Rattle.report.specs.Worked.{
  HasWorkedAnswers,
  HasWorkedDenials,
  HasWorkedNarinfo,
  HasWorkedRefusals,
  HasWorkedUsage,
};

/// The refusals of the table are numbered from 1 to 42, in order.
pub fn numbers_are_one_to_forty_two()
    ensures { map number refusals ≡ range_with_len 1 42 }
{}

/// Each refusal has a line of its own.
pub fn refusals_differ()
    ensures line { RefusalsAreLines }
    ensures own { RefusalsDiffer }
{}

/// In a sound world a denial, a refusal or a failure is one line.
pub fn stops_are_lines()
    ensures { StopsAreLines }
{}

/// What is listed can be read back: other paths or roots have another text.
pub fn listings_lose_nothing()
    ensures { (dir : List ℕ) → IsTrue (omits 10 dir) → ListingsDiffer dir }
{}

/// The usage of a store that was just made.
pub fn a_new_store_uses_nothing()
    ensures { ANewStoreUsesNothing }
{}

/// The lines of some denials, refusals, failures and answers.
pub fn worked_lines()
    ensures denials { HasWorkedDenials }
    ensures refusals { HasWorkedRefusals }
    ensures answers { HasWorkedAnswers }
{}

/// A usage report, and one with wide numbers.
pub fn worked_usage()
    ensures { HasWorkedUsage }
{}

/// The record of a source object.
pub fn worked_narinfo()
    ensures { HasWorkedNarinfo }
{}
