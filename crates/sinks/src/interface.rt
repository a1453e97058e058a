// What a sink is to those who write.
ghost use Rattle.std.specs.Prelude.{◌≡◌, ℕ, ◌+◌, ◌^◌, ◌<◌, List, length};
ghost use Rattle.sinks.specs.Puts.{Put};

// A put that found no space.
#[derive(Clone, Copy, PartialEq, Eq, Debug)]
pub struct Full;

// A sink takes bytes one at a time. Its meaning is the list of the bytes that it holds, and how many more it takes.
pub trait Sink {
    ghost held: { Self → List ℕ };

    ghost space: { Self → ℕ };

    // Which loan the sink fills: that stays, so the lender learns at the end what was put there.
    ghost home: { Self → ℕ };

    // Appends the byte, or refuses it where there is no space left.
    fn put(&mut self, byte: u8) -> Result<(), Full>
        ensures same { home self.new ≡ home self.old }
        ensures cases { Put (held self.old) (space self.old) byte result (held self.new) (space self.new) };

    // How many bytes it holds.
    fn count(&self) -> usize
        ensures { result ≡ length (held self.now) };

    // How many more bytes it takes. No law bounds what a sink may hold, so the answer says that all of it can be counted.
    fn space(&self) -> usize
        ensures value { result ≡ space self.now }
        ensures bound { length (held self.now) + result < 2 ^ 63 };
}
