// What the trial programs share: made-up input that is the same in each run, and what their second implementations have in common.
#![tactic(auto)]

mod dice;
mod draft;
mod page;
mod refusal;
mod scan;
mod tally;

pub use dice::Dice;
pub use draft::Draft;
pub use page::Page;
pub use refusal::{Reason, Stop, answered};
pub use scan::{Faulty, Placed, Token, Tokens};
pub use tally::Tally;

#[cfg(test)]
mod tests;
