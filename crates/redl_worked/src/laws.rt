//! What calls over small files come to.

ghost use Rattle.redl_inputs.specs.Readers.{Reader, IsReader};
ghost use Rattle.redl_outcome.specs.Brought.{Brought};
ghost use Rattle.redl_worked.specs.Calls.{AreWorkedOut};
ghost use Rattle.redl_worked.specs.Signs.{AreSigns};

/// Twenty calls over four files, each with the status, the bytes and the lines of its outcome.
pub fn calls_are_worked_out()
    ensures { (reader : Reader) → IsReader reader → (brought : Brought) → AreWorkedOut reader brought }
{}

/// Each sign of the page has the element that its kind asks for and closes what it opened; verdicts and words have their names.
pub fn signs_say_their_kinds()
    ensures { AreSigns }
{}
