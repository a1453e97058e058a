// What can be wrong with a token.
ghost use Rattle.tokens.specs.Faults.{number_of, place_of, layer_of};

use layers::{Fault, Layer};

// What is wrong at a backslash.
#[derive(Clone, Copy, PartialEq, Eq, Debug)]
pub enum Flaw {
    // The bytes end after the backslash.
    LoneBackslash,
    // `\'` without two hexadecimal digits.
    NoHexDigits,
    // A name of more than 32 letters.
    LongName,
    // A number of more than ten digits, or outside 32 signed bits.
    LongNumber,
    // `\bin` with more bytes than are left.
    BinPastEnd,
}

// A fault of a token: its flaw, and the place of its backslash.
#[derive(Clone, Copy, PartialEq, Eq, Debug)]
pub struct TokenFault {
    pub flaw: Flaw,
    pub place: usize,
}

impl Fault for TokenFault {
    ghost number = { number_of };

    ghost place = { place_of };

    ghost layer = { layer_of };

    fn number(&self) -> u8 {
        2
    }

    fn place(&self) -> usize {
        self.place
    }

    fn layer(&self) -> Layer {
        Layer::Tokens
    }
}
