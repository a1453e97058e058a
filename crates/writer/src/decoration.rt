// The check of decoration: what stands in a record and is no part of its content.
ghost use Rattle.std.specs.Prelude.{◌≡◌, [], map, not, length, Err};
ghost use Rattle.std.specs.List.{position};
ghost use Rattle.tokens.specs.Tokens.{items};
ghost use Rattle.tokens.specs.Shown.{shown};
ghost use Rattle.groups.specs.Stack.{held};
ghost use Rattle.writer.specs.Decoration.{is_printable, markers, among, faulty, Passes, sound, decoration};

use crate::faults::WriterFault;
use groups::{GroupFault, Stack};
use tokens::{Token, TokenFault, Tokens, name_at};

// How many groups decoration may open: one less than a record, whose own group is around them.
const MAX_GROUPS: usize = 63;

// The words that only the encapsulation itself may have, and `\bin`, whose bytes could hide what follows.
const MARKERS: [&[u8]; 7] = [
    b"htmlrtf",
    b"htmltag",
    b"mhtmltag",
    b"htmlbase",
    b"fromhtml",
    b"fromtext",
    b"bin",
];

// Whether decoration may be put as it is.
pub fn check_decoration(bytes: &[u8]) -> Result<(), WriterFault>
    ensures { result ≡ decoration bytes.now }
{
    match unprintable(bytes) {
        Some(at) => Err(WriterFault::NotPrintable(at)),
        None => check_sound(bytes),
    }
}

// The first byte that is not from 0x20 to 0x7E.
fn unprintable(bytes: &[u8]) -> Option<usize>
    ensures { result ≡ position (λ b. not (is_printable b)) bytes.now }
{
    bytes.iter().position(|byte| !matches!(byte, 0x20..=0x7E))
}

// Not `words.contains(&name)`: that compares a name with four words before it looks at an answer, which takes longer.
fn is_among(name: &[u8], words: &[&[u8]]) -> bool
    ensures { result ≡ among name.now (map (λ w. w.now) words.now) }
{
    for word in words {
        if name == *word {
            return true;
        }
    }
    false
}

// Whether decoration may not have this word.
fn is_marker(name: &[u8]) -> bool
    ensures { result ≡ among name.now markers }
{
    is_among(name, &MARKERS)
}

// A word that is both a marker and faulty counts as a marker.
fn fault_of(bytes: &[u8], fault: TokenFault) -> WriterFault
    ensures { Err result ≡ faulty bytes.now fault }
{
    if is_marker(name_at(bytes, fault.place)) {
        return WriterFault::MarkerWord(fault.place);
    }
    WriterFault::from(GroupFault::from(fault))
}

// The tokens are sound, the groups balanced, and no word is a marker.
fn check_sound(bytes: &[u8]) -> Result<(), WriterFault>
    ensures { result ≡ sound bytes.now [] (items 0 0 bytes.now) }
{
    let mut room = [0; MAX_GROUPS];
    let mut stack = Stack::new(&mut room);
    for step in Tokens::new(bytes) {
        match step {
            Ok(found) => pass(&mut stack, found.token, found.place)?,
            Err(fault) => return Err(fault_of(bytes, fault)),
        }
    }
    match stack.top() {
        Some(place) => Err(WriterFault::Unbalanced(place)),
        None => Ok(()),
    }
}

// Passes a token at a place: it may open or close a group, and is no marker.
fn pass(stack: &mut Stack<'_, usize>, token: Token<'_>, place: usize) -> Result<(), WriterFault>
    requires { length stack.old.entries.now ≡ 63 }
    ensures room { length stack.new.entries.now ≡ 63 }
    ensures cases { Passes (shown token.entry) place (held stack.old.depth stack.old.entries.now) result (held stack.new.depth stack.new.entries.now) }
{
    match token {
        Token::Open => stack.push(place)?,
        Token::Close => {
            stack.pop().ok_or(WriterFault::Unbalanced(place))?;
        }
        Token::Word { name, .. } if is_marker(name) => {
            return Err(WriterFault::MarkerWord(place));
        }
        _ => {}
    }
    Ok(())
}
