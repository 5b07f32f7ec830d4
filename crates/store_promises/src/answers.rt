//! The answer to a write.

ghost use Rattle.std.specs.Prelude.{◌≡◌};
ghost use Rattle.store_promises.specs.Answers.{answered as answer_of};

use store_types::{Answer, Stop};
use tables_sql::failure::Failed;

/// `answer` if the write was done, else its failure.
pub fn answered(written: Result<(), Failed>, answer: Answer) -> Result<Answer, Stop>
    ensures { result ≡ answer_of written answer }
{
    written?;
    Ok(answer)
}
