// What a sink refuses, besides a put that found no space.
ghost use Rattle.sinks.specs.Faults.{number_of, place_of, layer_of};

use layers::{Fault, Layer};

#[derive(Clone, Copy, PartialEq, Eq, Debug)]
pub enum SinkFault {
    // The buffer is shorter than the bytes that the cards hold.
    ShortBuffer,
}

impl Fault for SinkFault {
    ghost number = { number_of };

    ghost place = { place_of };

    ghost layer = { layer_of };

    // The refusal's number.
    fn number(&self) -> u8 {
        match self {
            SinkFault::ShortBuffer => 26,
        }
    }

    // The place in the input. A buffer that is too short has none.
    fn place(&self) -> usize {
        match self {
            SinkFault::ShortBuffer => 0,
        }
    }

    // The layer that refuses.
    fn layer(&self) -> Layer {
        match self {
            SinkFault::ShortBuffer => Layer::Sink,
        }
    }
}
