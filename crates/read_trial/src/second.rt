// A second reading of records, for comparison: by the tokens in a `Vec`, and a content that grows.
use crate::compose::compose;
use crate::scan::scan;
use layers::Refusal;
use reader::Reading;
use records::Kind;
use std::alloc::{AllocError, Global};
use std::fmt;
use trials::{Page, Placed, Reason, Stop, Token};

// How many tokens at the front may have a mark or a page.
const FRONT: usize = 10;

// The kind and the content of a sound record.
#[derive(Drop)]
pub struct Script {
    pub kind: Kind,
    pub content: String,
}

// What a reading comes to: its answer, and the buffer after it.
#[derive(PartialEq, Eq, Drop)]
pub struct Outcome {
    pub answer: Result<Reading, Refusal>,
    pub buffer: Vec<u8>,
}

// Prints the answer.
impl fmt::Display for Outcome {
    fn fmt<W: fmt::Write>(&self, f: &mut fmt::Formatter<W>) -> fmt::Result {
        match self.answer {
            Ok(reading) => {
                let kind = reading.kind;
                let length = reading.length;
                write!(f, "{kind}, {length} bytes")
            }
            Err(refusal) => write!(f, "{refusal}"),
        }
    }
}

// Reads with room for any content.
pub fn read_script(heap: Global, bytes: &[u8], page: &Page) -> Result<Script, Stop> {
    check_start(bytes)?;
    let scanned = scan(heap, bytes)?;
    check_rest(bytes, scanned.end)?;
    let kind = kind_of(&scanned.tokens)?;
    check_page(&scanned.tokens, page.number)?;
    let content = compose(heap, &scanned.tokens, kind, page)?;
    Ok(Script { kind, content })
}

// What reading into a buffer of some room should come to.
pub fn expect(
    heap: Global,
    script: &Result<Script, Refusal>,
    room: usize,
) -> Result<Outcome, AllocError> {
    let mut buffer = Vec::new(heap);
    let answer = match script {
        Ok(script) if script.content.len() > room => Err(Reason::ShortBuffer.at(0)),
        Ok(script) => {
            buffer.extend_from_slice(script.content.as_bytes())?;
            Ok(Reading {
                kind: script.kind,
                length: buffer.len(),
            })
        }
        Err(refusal) => Err(*refusal),
    };
    buffer.resize(room, 0)?;
    Ok(Outcome { answer, buffer })
}

// A record is not too long, and begins as one.
fn check_start(bytes: &[u8]) -> Result<(), Refusal> {
    if bytes.len() > 32_768 {
        return Err(Reason::TooLongToRead.at(0));
    }
    match bytes.strip_prefix(b"{\\rtf1") {
        Some([b'0'..=b'9', ..]) | None => Err(Reason::NotRtf.at(0)),
        Some(_) => Ok(()),
    }
}

// After the record only CR, LF and NUL may stand.
fn check_rest(bytes: &[u8], end: usize) -> Result<(), Refusal> {
    let mut rest = bytes.iter().enumerate().skip(end);
    match rest.find(|(_, byte)| !matches!(**byte, b'\r' | b'\n' | 0)) {
        Some((place, _)) => Err(Reason::Trailing.at(place)),
        None => Ok(()),
    }
}

// The kind by the first of the two marks among the tokens at the front.
fn kind_of(tokens: &[Placed<'_>]) -> Result<Kind, Refusal> {
    let mut last = 0;
    for placed in tokens.iter().take(FRONT) {
        last = placed.place;
        match placed.token {
            Token::Word("fromhtml", Some(1)) => return Ok(Kind::Html),
            Token::Word("fromtext", None) => return Ok(Kind::Text),
            Token::Word(_, _) | Token::Open => {}
            _ => break,
        }
    }
    Err(Reason::NoMark.at(last))
}

// The first declaration of a page among the tokens at the front has the given number.
fn check_page(tokens: &[Placed<'_>], page: u16) -> Result<(), Refusal> {
    let declared = tokens
        .iter()
        .take(FRONT)
        .find_map(|placed| match placed.token {
            Token::Word("ansicpg", number) => Some((number, placed.place)),
            _ => None,
        });
    match declared {
        Some((Some(number), _)) if number == i32::from(page) => Ok(()),
        Some((_, place)) => Err(Reason::WrongPage.at(place)),
        None => Err(Reason::WrongPage.at(0)),
    }
}
