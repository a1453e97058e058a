// The layers of the format, and what each refusal tells: its number, the place where it was met, and the layer that refuses.
#![tactic(auto)]

mod fault;
mod refusal;

ghost use Rattle.std.specs.Prelude.{◌≡◌, Some};
ghost use Rattle.layers.specs.Layers.{name_of};

pub use fault::Fault;
pub use refusal::Refusal;
use std::fmt;

#[derive(Clone, Copy, PartialEq, Eq, Debug)]
pub enum Layer {
    Tokens,
    Groups,
    Record,
    Writer,
    Sink,
}

impl Layer {
    // The layer's name in print.
    pub fn name(&self) -> &'static str
        ensures { result.now ≡ name_of self.now }
    {
        match self {
            Layer::Tokens => "tokens",
            Layer::Groups => "groups",
            Layer::Record => "record",
            Layer::Writer => "writer",
            Layer::Sink => "sink",
        }
    }
}

// Prints the layer's name.
impl fmt::Display for Layer {
    ghost output = { λ layer. Some (name_of layer) };

    fn fmt<W: fmt::Write>(&self, f: &mut fmt::Formatter<W>) -> fmt::Result {
        f.write_str(self.name())
    }
}
