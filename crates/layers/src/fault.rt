// What every fault of the format tells.
ghost use Rattle.std.specs.Prelude.{◌≡◌, ℕ};
ghost use Rattle.layers.specs.declared.Layer.{Layer as LayerOf};
ghost use Rattle.layers.specs.Refusals.{refusal_of};

use crate::{Layer, Refusal};

// A fault tells the number of its refusal, the place where it was met, and the layer that refuses.
pub trait Fault {
    ghost number: { Self → ℕ };

    ghost place: { Self → ℕ };

    ghost layer: { Self → LayerOf };

    fn number(&self) -> u8
        ensures { result ≡ number self.now };

    fn place(&self) -> usize
        ensures { result ≡ place self.now };

    fn layer(&self) -> Layer
        ensures { result ≡ layer self.now };

    // All three together.
    fn refusal(&self) -> Refusal
        ensures { result ≡ refusal_of (number self.now) (place self.now) (layer self.now) }
    {
        Refusal {
            number: self.number(),
            place: self.place(),
            layer: self.layer(),
        }
    }
}
