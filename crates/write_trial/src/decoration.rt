// The check of decoration, token by token.
use std::alloc::Global;
use trials::{Reason, Stop, Token, Tokens};

// The words of the encapsulation itself, and `\bin`, whose bytes could hide what follows.
const MARKERS: &[&str] = &[
    "htmlrtf", "htmltag", "mhtmltag", "htmlbase", "fromhtml", "fromtext", "bin",
];

// Whether decoration may stand, by the first that is wrong.
pub fn check(heap: Global, bytes: &[u8]) -> Result<(), Stop> {
    let unprintable = |byte: &u8| !matches!(*byte, b' '..=b'~');
    if let Some(place) = bytes.iter().position(unprintable) {
        return Err(Reason::NotPrintable.at(place).into());
    }
    // The places of the open groups.
    let mut open = Vec::new(heap);
    for step in Tokens::new(bytes) {
        // A word that is a marker counts as one even where it is faulty.
        let (name, place) = match step {
            Ok(placed) => (placed.token.name(), placed.place),
            Err(faulty) => (faulty.name, faulty.place),
        };
        if name.is_some_and(|name| MARKERS.contains(&name)) {
            return Err(Reason::MarkerWord.at(place).into());
        }
        match step?.token {
            Token::Open if open.len() >= 63 => return Err(Reason::TooDeep.at(place).into()),
            Token::Open => open.push(place)?,
            Token::Close => {
                let _ = open.pop().ok_or(Reason::Unbalanced.at(place))?;
            }
            _ => {}
        }
    }
    match open.last() {
        Some(place) => Err(Reason::Unbalanced.at(*place).into()),
        None => Ok(()),
    }
}
