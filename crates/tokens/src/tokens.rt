// The tokens of given bytes, one after the other.
ghost use Rattle.std.specs.Prelude.{◌≡◌};
ghost use Rattle.std.specs.Iterator.{YieldsFirstBy, item_count};
ghost use Rattle.tokens.specs.Tokens.{items};
ghost use Rattle.tokens.specs.Shown.{shown_item, items_left};

use crate::faults::TokenFault;
use crate::lexer::{Found, next_token};

// A walk over the tokens. It ends with the bytes, or after the first fault.
#[derive(Drop)]
pub struct Tokens<'a> {
    bytes: &'a [u8],
    // Where the next token is looked for: nowhere after a fault.
    at: Option<usize>,
}

impl<'a> Tokens<'a> {
    pub fn new(bytes: &'a [u8]) -> Self
        ensures { items_left result ≡ items 0 0 bytes.now }
    {
        Tokens { bytes, at: Some(0) }
    }
}

// Gives the next token, or the fault that ends the walk.
impl<'a> Iterator for Tokens<'a> {
    type Item = Result<Found<'a>, TokenFault>;

    ghost next_gives = { YieldsFirstBy shown_item items_left };

    ghost remaining = { item_count items_left };

    fn next(&mut self) -> Option<Result<Found<'a>, TokenFault>> {
        let at = self.at?;
        match next_token(self.bytes, at) {
            Ok(Some(found)) => {
                self.at = Some(found.end);
                Some(Ok(found))
            }
            Ok(None) => None,
            Err(fault) => {
                self.at = None;
                Some(Err(fault))
            }
        }
    }
}
