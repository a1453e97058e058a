// Which kind a record encapsulates, and whether it declares the given code page, by its first ten tokens.
ghost use Rattle.std.specs.Prelude.{◌≡◌};
ghost use Rattle.tokens.specs.Shown.{shown as shown_token};
ghost use Rattle.tokens.specs.Tokens.{items};
ghost use Rattle.reader.specs.Recognition.{mark_of, sign_of, recognised, declares as declares_of, declared};

use crate::faults::ReadFault;
use records::Kind;
use tokens::{Token, Tokens};

// How many tokens are gone through.
const TOKENS: usize = 10;

// What a token is where a mark is looked for. Three outcomes by name: an option in an option would not say which is which.
#[derive(Clone, Copy)]
pub enum Sign {
    Mark(Kind),
    // The next token is looked at.
    Pass,
    // No mark can come any more.
    Stop,
}

// `\fromhtml` with the number 1, or `\fromtext` with no number.
fn mark_of(name: &[u8], number: Option<i32>) -> Option<Kind>
    ensures { result ≡ mark_of name.now number }
{
    match number {
        Some(1) if name == b"fromhtml".as_slice() => Some(Kind::Html),
        None if name == b"fromtext".as_slice() => Some(Kind::Text),
        _ => None,
    }
}

fn sign_of(token: Token<'_>) -> Sign
    ensures { result ≡ sign_of (shown_token token.entry) }
{
    match token {
        Token::Open => Sign::Pass,
        Token::Word { name, number } => match mark_of(name, number) {
            Some(kind) => Sign::Mark(kind),
            None => Sign::Pass,
        },
        _ => Sign::Stop,
    }
}

// The kind by the first mark. A fault counts as the end of the tokens.
pub fn recognise(bytes: &[u8]) -> Result<Kind, ReadFault>
    ensures { result ≡ recognised 10 (items 0 0 bytes.now) }
{
    for (found, passed) in Tokens::new(bytes).map_while(Result::ok).zip(0..TOKENS) {
        match sign_of(found.token) {
            Sign::Mark(kind) => return Ok(kind),
            Sign::Pass if passed < TOKENS - 1 => {}
            Sign::Pass | Sign::Stop => return Err(ReadFault::NoEncapsulation(found.place)),
        }
    }
    Err(ReadFault::NoEncapsulation(0))
}

// Whether a token is `\ansicpg`, and then whether its number is that of the page.
fn declares(token: Token<'_>, page: u16) -> Option<bool>
    ensures { result ≡ declares_of page (shown_token token.entry) }
{
    match token {
        Token::Word {
            name: b"ansicpg",
            number,
        } => Some(number == Some(i32::from(page))),
        _ => None,
    }
}

// The first `\ansicpg` declares the page, and it is the given one. A fault counts as the end of the tokens.
#[tactic(auto, using(crate::proofs::Marks::page_on))]
pub fn check_page(bytes: &[u8], page: u16) -> Result<(), ReadFault>
    ensures { result ≡ declared page 10 (items 0 0 bytes.now) }
{
    for found in Tokens::new(bytes).map_while(Result::ok).take(TOKENS) {
        match declares(found.token, page) {
            Some(true) => return Ok(()),
            Some(false) => return Err(ReadFault::WrongPage(found.place)),
            None => {}
        }
    }
    Err(ReadFault::WrongPage(0))
}
