// Groups: what stands between an opening brace and its closing one, and the stack of those still open.
#![tactic(auto)]

mod faults;
mod stack;
mod walk;

pub use faults::GroupFault;
pub use stack::{MAX_OPEN, Opening, Stack};
pub use walk::group_end;
