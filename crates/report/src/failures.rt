//! The failures of a store as failures of the product, and the line of one, without memory.
ghost use Rattle.std.specs.Prelude.{◌≡◌};
ghost use Rattle.model.specs.Failures.{of_store};
ghost use Rattle.report.specs.Stops.{failure_text};
ghost use Rattle.store_types.specs.View.{failure_view};

use model::Failure;
use tables_sql::failure::Failed;

/// The failure as which that of a store is reported.
pub fn failure_of(failed: Failed) -> Failure
    ensures { result ≡ of_store (failure_view failed) }
{
    match failed {
        Failed::Memory => Failure::Memory,
        Failed::Size => Failure::Size,
        Failed::Disk => Failure::Disk,
    }
}

/// The line of a failure of a store, with its line feed.
///
/// ```rust
/// use store::Failed;
///
/// assert_eq!(rt; report::failure_line(Failed::Disk), "failed: disk\n");
/// ```
pub fn failure_line(failure: Failed) -> &'static str
    ensures { result.now ≡ failure_text (failure_view failure) }
{
    failure_of(failure).line()
}
