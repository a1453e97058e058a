// Reading: from a record to exactly the kind and content that it encapsulates.
#![tactic(auto)]

mod assemble;
mod faults;
mod guard;
mod promises;
mod reading;
mod recognise;
mod rules;
mod sound;
mod state;
mod walk;
mod words;

pub use faults::ReadFault;
pub use promises::{laws_of_reading, readings_as_worked};
pub use reading::{Reading, read};
