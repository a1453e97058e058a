// What a writing call can be refused for.
ghost use Rattle.std.specs.Prelude.{◌≡◌};
ghost use Rattle.writer.specs.Faults.{number_of, place_of, layer_of};
ghost use Rattle.writer.specs.declared.faults.WriterFault.TheVariants.{Group as ByGroup};

use groups::GroupFault;
use layers::{Fault, Layer};

// A refusal of a writing call.
#[derive(Clone, Copy, PartialEq, Eq, Debug)]
pub enum WriterFault {
    // A fault of a decoration's groups or of its tokens, passed up whole.
    Group(GroupFault),
    // A decoration that closes a group which it did not open, or leaves one open: that brace.
    Unbalanced(usize),
    // A piece that is not UTF-8: the first byte that starts no sequence.
    NotUtf8(usize),
    // A decoration with a word that only the encapsulation itself may have: the word.
    MarkerWord(usize),
    // A decoration with a byte outside 0x20 to 0x7E: that byte.
    NotPrintable(usize),
    // The call needs an open record, and there is none.
    NoneOpen,
    // An open while a record is open.
    AlreadyOpen,
    // Markup or decoration while a text is open.
    TextOpen,
    // The sink has no space for the bytes and for the closing brace.
    NoSpace,
    // The record would be longer than reading takes.
    TooLong,
}

// Lets `?` pass a fault of the groups up. Written out, since contracts name the fault that comes of it.
impl From<GroupFault> for WriterFault {
    ghost from_gives = { λ e r. r ≡ ByGroup e };

    fn from(e: GroupFault) -> WriterFault {
        WriterFault::Group(e)
    }
}

impl Fault for WriterFault {
    ghost number = { number_of };

    ghost place = { place_of };

    ghost layer = { layer_of };

    fn number(&self) -> u8 {
        match self {
            WriterFault::Group(f) => f.number(),
            WriterFault::Unbalanced(_) => 14,
            WriterFault::NotUtf8(_) => 13,
            WriterFault::MarkerWord(_) => 15,
            WriterFault::NotPrintable(_) => 16,
            WriterFault::NoneOpen => 21,
            WriterFault::AlreadyOpen => 22,
            WriterFault::TextOpen => 23,
            WriterFault::NoSpace => 24,
            WriterFault::TooLong => 25,
        }
    }

    fn place(&self) -> usize {
        match self {
            WriterFault::Group(f) => f.place(),
            WriterFault::Unbalanced(at) => *at,
            WriterFault::NotUtf8(at) => *at,
            WriterFault::MarkerWord(at) => *at,
            WriterFault::NotPrintable(at) => *at,
            _ => 0,
        }
    }

    fn layer(&self) -> Layer {
        match self {
            WriterFault::Group(f) => f.layer(),
            WriterFault::Unbalanced(_) => Layer::Groups,
            _ => Layer::Writer,
        }
    }
}
