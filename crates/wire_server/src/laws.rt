//! Laws of the definitions.
ghost use Rattle.wire_server.specs.Division.{DividesOnce};

/// An input divides in one way into messages.
pub fn an_input_divides_once()
    ensures { DividesOnce }
{}
