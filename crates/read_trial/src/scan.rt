// The tokens of a record.
use std::alloc::Global;
use trials::{Placed, Reason, Stop, Token, Tokens};

// A record's tokens, and the place after its last brace.
#[derive(Drop)]
pub struct Scanned<'a> {
    pub tokens: Vec<Placed<'a>>,
    pub end: usize,
}

// Scans to the brace that closes the first group.
pub fn scan<'a>(heap: Global, bytes: &'a [u8]) -> Result<Scanned<'a>, Stop> {
    let mut tokens = Vec::new(heap);
    // The places of the open groups.
    let mut open = Vec::new(heap);
    for step in Tokens::new(bytes) {
        let placed = step?;
        let place = placed.place;
        tokens.push(placed)?;
        match placed.token {
            Token::Open if open.len() >= 64 => return Err(Reason::TooDeep.at(place).into()),
            Token::Open => open.push(place)?,
            Token::Close => {
                let _ = open.pop();
                if open.is_empty() {
                    let end = place.saturating_add(1);
                    return Ok(Scanned { tokens, end });
                }
            }
            _ => {}
        }
    }
    let place = open.last().copied().unwrap_or(0);
    Err(Reason::Unclosed.at(place).into())
}
