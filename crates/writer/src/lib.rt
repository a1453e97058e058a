// Writing: a record that encapsulates what was typed, call by call, into any sink.
#![tactic(auto)]

mod decoration;
mod faults;
mod fixed;
mod header;
mod keys;
mod piece;
mod spelling;
mod state;
mod writer;

pub use faults::WriterFault;
pub use state::{CallKind, allowed};
pub use writer::Writer;
