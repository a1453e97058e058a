// What reading knows of an open group.
ghost use Rattle.std.specs.Prelude.{◌≡◌};
ghost use Rattle.reader.specs.Rules.{outermost as outermost_of, inside as inside_of};

use groups::Opening;

// The reading state of a group. An opened group copies the state around it, and a closed group gives that back.
#[derive(Clone, Copy)]
pub struct ReadingState {
    // The place of the group's brace.
    pub opens: usize,
    // Nothing in the group has effect.
    pub silent: bool,
    // The group is HTML markup.
    pub tag: bool,
    // Only `\htmlrtf` has effect.
    pub suppressed: bool,
    // How many tokens after a `\u` stand in for it, and are skipped.
    pub fallback: u32,
}

impl Opening for ReadingState {
    ghost opens = { λ s. s.opens };

    fn opens(&self) -> usize {
        self.opens
    }
}

impl ReadingState {
    // The state of the first group.
    pub fn outermost() -> Self
        ensures { result ≡ outermost_of }
    {
        ReadingState {
            opens: 0,
            silent: false,
            tag: false,
            suppressed: false,
            fallback: 1,
        }
    }

    // The state of a group that opens at a place inside this one.
    pub fn inside(self, place: usize) -> Self
        ensures { result ≡ inside_of place self }
    {
        ReadingState {
            opens: place,
            ..self
        }
    }
}
