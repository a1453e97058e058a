// Records: an archive taken apart into the records that it is made of.
#![tactic(auto)]

mod archive;
mod archive_fault;
mod examples;
mod faults;
mod kinds;
mod parts;

pub use archive::Records;
pub use archive_fault::ArchiveFault;
pub use examples::archives_as_worked;
pub use faults::RecordFault;
pub use kinds::Kind;
pub use parts::{Part, take_apart};
