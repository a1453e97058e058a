// The definitions of tokens at worked examples.
ghost use Rattle.tokens.specs.Examples.{WorkedExamples};

// A promise and no more: the definitions give what the examples say.
pub fn tokens_as_worked()
    ensures { WorkedExamples }
{}
