// Sittings worked out.
ghost use Rattle.sittings.specs.Examples.{WorkedSittings};

// A promise and no more: the definitions give what the examples say.
pub fn sittings_as_worked()
    ensures { WorkedSittings }
{}
