// The refusal that ends the taking apart of an archive.
ghost use Rattle.records.specs.Faults.{number_of, layer_of};

use crate::faults::RecordFault;
use layers::{Fault, Layer};

// A fault of a record, and where in the archive it was met.
#[derive(Clone, Copy)]
pub struct ArchiveFault {
    // The fault, whose own place counts the rest that was refused.
    pub fault: RecordFault,
    // The place of that rest.
    pub rest: usize,
    // The place of the fault, counted from the archive's start. A field, though it is a sum: that the sum fits, as a fact of the
    // type, would ask a proof of whoever makes one.
    pub place: usize,
}

impl Fault for ArchiveFault {
    ghost number = { λ f. number_of f.fault };

    ghost place = { λ f. f.place };

    ghost layer = { λ f. layer_of f.fault };

    fn number(&self) -> u8 {
        self.fault.number()
    }

    fn place(&self) -> usize {
        self.place
    }

    fn layer(&self) -> Layer {
        self.fault.layer()
    }
}
