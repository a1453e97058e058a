// The meanings of the pages at worked examples.
ghost use Rattle.pages.specs.Examples.{ExamplesOfEachPage};

// A promise and no more: the definitions give what the examples say.
#[tactic(auto, unfolding(crate::specs::Windows::chars1251, crate::specs::Windows::chars1252))]
pub fn pages_as_worked()
    ensures { ExamplesOfEachPage }
{}
