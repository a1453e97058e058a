// Sinks: where the bytes that are written go. Each fills what it is lent, and allocates nothing.
#![tactic(auto)]

mod buffer;
mod cards;
mod faults;
mod interface;
mod whole;

pub use buffer::BufferSink;
pub use cards::{CARD_SIZE, Card, CardSink, cards_for};
pub use faults::SinkFault;
pub use interface::{Full, Sink};
pub use whole::put_all;
