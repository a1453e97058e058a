// Braces: the tokens that open and close groups.
ghost use Rattle.std.specs.Prelude.{◌≡◌, length, drop};
ghost use Rattle.tokens.specs.Tokens.{items, from_brace};
ghost use Rattle.tokens.specs.Shown.{brace_items, BraceFits};

use crate::faults::TokenFault;
use crate::lexer::control;
use crate::scan::{Class, run_length};

// A brace, by its place.
#[derive(Clone, Copy)]
pub enum Brace {
    Open(usize),
    Close(usize),
}

// The first brace from `from` on, or the fault before it. The tokens before it open and close no group, and no more is
// asked of them than where they end.
pub fn next_brace(bytes: &[u8], from: usize) -> Result<Option<Brace>, TokenFault>
    ensures value { brace_items bytes.now result ≡ from_brace (items 0 from (drop from bytes.now)) }
    ensures bound { BraceFits from (length bytes.now) result }
{
    // A token's end is known once it is read, so no range counts the place.
    let mut at = from;
    while at < bytes.len() {
        match bytes[at] {
            b'{' => return Ok(Some(Brace::Open(at))),
            b'}' => return Ok(Some(Brace::Close(at))),
            // No layout is looked for before a backslash that is at hand.
            b'\\' => match control(&bytes[at + 1..]) {
                Ok(found) => at += found.length,
                Err(flaw) => return Err(TokenFault { flaw, place: at }),
            },
            _ => at += run_length(&bytes[at..], Class::Passive),
        }
    }
    Ok(None)
}
