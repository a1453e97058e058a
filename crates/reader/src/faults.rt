// What a reading can be refused for.
ghost use Rattle.std.specs.Prelude.{◌≡◌};
ghost use Rattle.reader.specs.Faults.{number_of, place_of, layer_of};
ghost use Rattle.reader.specs.declared.faults.ReadFault.TheVariants.{Record as ByRecord};

use layers::{Fault, Layer};
use records::RecordFault;

// A refusal of a reading.
#[derive(Clone, Copy, PartialEq, Eq, Debug)]
pub enum ReadFault {
    // A fault of the record, its groups or its tokens, passed up whole.
    Record(RecordFault),
    // A byte other than CR, LF and NUL after the record.
    Trailing(usize),
    // No mark of an encapsulation: the token where looking for one ends.
    NoEncapsulation(usize),
    // No declared code page, or another than the given one: its word, or 0.
    WrongPage(usize),
    // A byte that has no character in the code page.
    NoCharacter(usize),
    // A `\u` whose number is no 16-bit unit.
    NoUnit(usize),
    // Half of a character without its other half.
    LoneHalf(usize),
    // More bytes than reading takes.
    TooLong,
    // A result buffer that is shorter than the content.
    ShortBuffer,
}

// Lets `?` pass a fault of the record up. Written out, since contracts name the fault that comes of it.
impl From<RecordFault> for ReadFault {
    ghost from_gives = { λ e r. r ≡ ByRecord e };

    fn from(e: RecordFault) -> ReadFault {
        ReadFault::Record(e)
    }
}

impl Fault for ReadFault {
    ghost number = { number_of };

    ghost place = { place_of };

    ghost layer = { layer_of };

    fn number(&self) -> u8 {
        match self {
            ReadFault::Record(f) => f.number(),
            ReadFault::Trailing(_) => 5,
            ReadFault::NoEncapsulation(_) => 6,
            ReadFault::WrongPage(_) => 7,
            ReadFault::NoCharacter(_) => 8,
            ReadFault::NoUnit(_) => 9,
            ReadFault::LoneHalf(_) => 10,
            ReadFault::TooLong => 12,
            ReadFault::ShortBuffer => 26,
        }
    }

    fn place(&self) -> usize {
        match self {
            ReadFault::Record(f) => f.place(),
            ReadFault::Trailing(at) => *at,
            ReadFault::NoEncapsulation(at) => *at,
            ReadFault::WrongPage(at) => *at,
            ReadFault::NoCharacter(at) => *at,
            ReadFault::NoUnit(at) => *at,
            ReadFault::LoneHalf(at) => *at,
            ReadFault::TooLong | ReadFault::ShortBuffer => 0,
        }
    }

    fn layer(&self) -> Layer {
        match self {
            ReadFault::Record(f) => f.layer(),
            _ => Layer::Record,
        }
    }
}
