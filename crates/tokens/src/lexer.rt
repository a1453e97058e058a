// The next token of given bytes.
ghost use Rattle.std.specs.Prelude.{◌≡◌, ◌+◌, ◌≤◌, false, length, drop};
ghost use Rattle.std.specs.Char.{is_ascii_alphabetic};
ghost use Rattle.std.specs.List.{prefix_len};
ghost use Rattle.tokens.specs.Tokens.{is_layout, spaced as spaced_by, data_count, named, hex_pair, control as control_of, front as front_of, next};
ghost use Rattle.tokens.specs.Names.{name_at};
ghost use Rattle.tokens.specs.Bounds.{LexemeFits};
ghost use Rattle.tokens.specs.Shown.{shown_front, shown_next, FoundFits};

use crate::faults::{Flaw, TokenFault};
use crate::scan::{Class, begins_with, hex_pair, number_at, run_length};

// The most letters that a name has.
const MAX_NAME: usize = 32;

// A token. A word borrows its name from the given bytes.
#[derive(Clone, Copy)]
pub enum Token<'a> {
    Open,
    Close,
    // A control word. The data of `\bin` belongs to the token.
    Word { name: &'a [u8], number: Option<i32> },
    // `\'` and two hexadecimal digits.
    Hex(u8),
    // A backslash and any other byte.
    Symbol(u8),
    Text(u8),
}

// A token with its place and the place after it.
#[derive(Clone, Copy)]
pub struct Found<'a> {
    pub token: Token<'a>,
    pub place: usize,
    pub end: usize,
}

// A token at the front of some bytes, and how many of them it takes.
#[derive(Clone, Copy)]
pub(crate) struct Lexeme<'a> {
    pub(crate) token: Token<'a>,
    pub(crate) length: usize,
}

// The first token from `at` on, with its place; none where only layout is left.
pub fn next_token<'a>(bytes: &'a [u8], at: usize) -> Result<Option<Found<'a>>, TokenFault>
    ensures value { shown_next result ≡ next at (drop at bytes.now) }
    ensures bound { FoundFits at (length bytes.now) result }
{
    if at >= bytes.len() {
        return Ok(None);
    }
    let given = &bytes[at..];
    let skipped = run_length(given, Class::Layout);
    let Some((first, rest)) = given[skipped..].split_first() else {
        return Ok(None);
    };
    let place = at + skipped;
    match front(*first, rest) {
        Ok(Lexeme { token, length }) => Ok(Some(Found {
            token,
            place,
            end: place + length,
        })),
        Err(flaw) => Err(TokenFault { flaw, place }),
    }
}

// The token that begins with a byte that is not layout, and goes on in those after it.
fn front<'a>(first: u8, rest: &'a [u8]) -> Result<Lexeme<'a>, Flaw>
    requires { is_layout first ≡ false }
    ensures value { shown_front result ≡ front_of first rest.now }
    ensures bound { LexemeFits (1 + length rest.now) result }
{
    let token = match first {
        b'{' => Token::Open,
        b'}' => Token::Close,
        b'\\' => return control(rest),
        b => Token::Text(b),
    };
    Ok(Lexeme { token, length: 1 })
}

// The token that a backslash begins, by the bytes after it.
pub(crate) fn control<'a>(bytes: &'a [u8]) -> Result<Lexeme<'a>, Flaw>
    ensures value { shown_front result ≡ control_of bytes.now }
    ensures bound { LexemeFits (1 + length bytes.now) result }
{
    let Some((first, rest)) = bytes.split_first() else {
        return Err(Flaw::LoneBackslash);
    };
    match *first {
        b if b.is_ascii_alphabetic() => word(bytes),
        b'\'' => hex(rest),
        b => Ok(Lexeme {
            token: Token::Symbol(b),
            length: 2,
        }),
    }
}

// A byte by two hexadecimal digits, which come after `\'`.
fn hex<'a>(bytes: &'a [u8]) -> Result<Lexeme<'a>, Flaw>
    ensures value { shown_front result ≡ hex_pair bytes.now }
    ensures bound { LexemeFits (2 + length bytes.now) result }
{
    let [high, low, ..] = bytes else {
        return Err(Flaw::NoHexDigits);
    };
    match hex_pair(*high, *low) {
        Some(byte) => Ok(Lexeme {
            token: Token::Hex(byte),
            length: 4,
        }),
        None => Err(Flaw::NoHexDigits),
    }
}

// The control word whose name these bytes begin with, with its number.
fn word<'a>(bytes: &'a [u8]) -> Result<Lexeme<'a>, Flaw>
    ensures value { shown_front result ≡ named (prefix_len is_ascii_alphabetic bytes.now) bytes.now }
    ensures bound { LexemeFits (1 + length bytes.now) result }
{
    let (name, rest) = bytes.split_at(run_length(bytes, Class::Letter));
    if name.len() > MAX_NAME {
        return Err(Flaw::LongName);
    }
    match number_at(rest)? {
        Some(numeral) => spaced(name, Some(numeral.value), numeral.length, rest),
        None => spaced(name, None, 0, rest),
    }
}

// The control word whose number takes so many of the bytes after its name: one space belongs to it, then the data of `\bin`.
fn spaced<'a>(
    name: &'a [u8],
    number: Option<i32>,
    taken: usize,
    rest: &'a [u8],
) -> Result<Lexeme<'a>, Flaw>
    requires { taken ≤ length rest.now }
    ensures value { shown_front result ≡ spaced_by name.now number taken rest.now }
    ensures bound { LexemeFits (1 + length name.now + length rest.now) result }
{
    let space = begins_with(&rest[taken..], b' ');
    let count = data_count(name, number);
    if count > rest.len() - (taken + space) {
        return Err(Flaw::BinPastEnd);
    }
    Ok(Lexeme {
        token: Token::Word { name, number },
        length: 1 + name.len() + (taken + space) + count,
    })
}

// How many bytes of data a word has: only `\bin` with a number above 0 has any.
fn data_count(name: &[u8], number: Option<i32>) -> usize
    ensures { result ≡ data_count name.now number }
{
    if name != b"bin".as_slice() {
        return 0;
    }
    match number {
        Some(count) if count > 0 => count as usize,
        _ => 0,
    }
}

// The name of the word whose backslash stands at `place`, also where no sound token does.
pub fn name_at<'a>(bytes: &'a [u8], place: usize) -> &'a [u8]
    ensures { result.now ≡ name_at place bytes.now }
{
    if place >= bytes.len() {
        return &bytes[0..0];
    }
    let rest = &bytes[place + 1..];
    &rest[..run_length(rest, Class::Letter)]
}
