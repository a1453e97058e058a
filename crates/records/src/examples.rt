// The definitions of taking apart at worked examples.
ghost use Rattle.records.specs.Examples.{WorkedExamples};

// A promise and no more: the definitions give what the examples say.
pub fn archives_as_worked()
    ensures { WorkedExamples }
{}
