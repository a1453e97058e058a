// What can be wrong with a record.
ghost use Rattle.std.specs.Prelude.{◌≡◌};
ghost use Rattle.records.specs.Faults.{number_of, place_of, layer_of};
ghost use Rattle.records.specs.declared.faults.RecordFault.TheVariants.{Group as ByGroup};

use groups::GroupFault;
use layers::{Fault, Layer};

// A fault of a record, or of its groups or tokens.
#[derive(Clone, Copy, PartialEq, Eq, Debug)]
pub enum RecordFault {
    // The bytes do not begin with `{\rtf1`, or a digit follows that.
    NotRtf,
    // A fault of the groups or of a token, passed up whole.
    Group(GroupFault),
}

// Lets `?` pass a fault of the groups up. Written out, since contracts name the fault that comes of it.
impl From<GroupFault> for RecordFault {
    ghost from_gives = { λ e r. r ≡ ByGroup e };

    fn from(e: GroupFault) -> RecordFault {
        RecordFault::Group(e)
    }
}

impl Fault for RecordFault {
    ghost number = { number_of };

    ghost place = { place_of };

    ghost layer = { layer_of };

    fn number(&self) -> u8 {
        match self {
            RecordFault::NotRtf => 1,
            RecordFault::Group(f) => f.number(),
        }
    }

    fn place(&self) -> usize {
        match self {
            RecordFault::NotRtf => 0,
            RecordFault::Group(f) => f.place(),
        }
    }

    fn layer(&self) -> Layer {
        match self {
            RecordFault::NotRtf => Layer::Record,
            RecordFault::Group(f) => f.layer(),
        }
    }
}
