// A refusal as it is told.
ghost use Rattle.std.specs.Prelude.{Some};
ghost use Rattle.layers.specs.Refusals.{told};

use crate::Layer;
use std::fmt;

// The number of a refusal, as the format fixes it, the place where it was met, and the layer that refuses.
#[derive(Clone, Copy, PartialEq, Eq, Debug)]
pub struct Refusal {
    pub number: u8,
    pub place: usize,
    pub layer: Layer,
}

// Prints `refused 4 at 0 in groups`.
impl fmt::Display for Refusal {
    ghost output = { λ refusal. Some (told refusal) };

    fn fmt<W: fmt::Write>(&self, f: &mut fmt::Formatter<W>) -> fmt::Result {
        let number = self.number;
        let place = self.place;
        let layer = self.layer;
        write!(f, "refused {number} at {place} in {layer}")
    }
}
