// Tokens: the smallest parts of a record, each told with its place in the given bytes.
#![tactic(auto)]

mod brace;
mod examples;
mod faults;
mod lexer;
mod scan;
mod text;
mod tokens;

pub use brace::{Brace, next_brace};
pub use examples::tokens_as_worked;
pub use faults::{Flaw, TokenFault};
pub use lexer::{Found, Token, name_at, next_token};
pub use text::text_end;
pub use tokens::Tokens;
