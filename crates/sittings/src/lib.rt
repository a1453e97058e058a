// Sittings: writing calls one after the other, and what holds of every archive that comes of them.
#![tactic(auto)]

mod calls;
mod examples;

pub use calls::{Call, make, serve};
pub use examples::sittings_as_worked;
