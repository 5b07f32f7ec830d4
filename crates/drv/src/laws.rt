//! Laws of the definitions, each the contract of a function that does nothing.
ghost use Rattle.drv.specs.Laws.{OneList, OneOutcome};

/// A text has at most one list of outputs.
pub fn a_text_has_one_list_of_outputs()
    ensures { OneList }
{}

/// A text has one outcome: its recorded outputs or its fault, by the function in `specs/`.
pub fn a_text_has_one_outcome()
    ensures { OneOutcome }
{}
