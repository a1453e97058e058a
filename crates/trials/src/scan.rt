// The tokens of given bytes, for the second implementations of both trials. Nothing of the library's own lexer is used.
ghost use Rattle.std.specs.Prelude.{◌≡◌, ◌<◌, ℤ, length, Option, IfSome};
ghost use Rattle.std.specs.Iterator.{at_most};

use std::str::from_utf8;

#[derive(Clone, Copy)]
pub enum Token<'a> {
    Open,
    Close,
    // A control word, with the data of `\bin`.
    Word(&'a str, Option<i32>),
    Hex(u8),
    Symbol(u8),
    Text(u8),
}

impl<'a> Token<'a> {
    // The name, where it is a word.
    pub fn name(self) -> Option<&'a str>
        ensures { IfSome result (λ name. (number : Option ℤ) × (self.entry ≡ Token.Word name number)) }
    {
        match self {
            Token::Word(name, _) => Some(name),
            _ => None,
        }
    }
}

// A token with its place.
#[derive(Clone, Copy)]
pub struct Placed<'a> {
    pub token: Token<'a>,
    pub place: usize,
}

// A faulty token: its place, and its name where it is a word.
#[derive(Clone, Copy)]
pub struct Faulty<'a> {
    pub name: Option<&'a str>,
    pub place: usize,
}

// The tokens of bytes, up to the first that is faulty.
#[derive(Drop)]
pub struct Tokens<'a> {
    rest: &'a [u8],
    // How many bytes there are in all.
    length: usize,
}

impl<'a> Tokens<'a> {
    pub fn new(bytes: &'a [u8]) -> Tokens<'a>
        ensures rest { result.rest.now ≡ bytes.now }
        ensures length { result.length ≡ length bytes.now }
    {
        Tokens {
            rest: bytes,
            length: bytes.len(),
        }
    }
}

impl<'a> Iterator for Tokens<'a> {
    type Item = Result<Placed<'a>, Faulty<'a>>;

    ghost remaining = { λ s. at_most (length s.rest.now) };

    fn next(&mut self) -> Option<Result<Placed<'a>, Faulty<'a>>> {
        let layout = self.rest.iter().take_while(|b| is_layout(**b)).count();
        let (first, after) = self.rest[layout..].split_first()?;
        let place = self.length.saturating_sub(after.len()).saturating_sub(1);
        let found = match first {
            b'{' => Ok((Token::Open, 0)),
            b'}' => Ok((Token::Close, 0)),
            b'\\' => control(after),
            byte => Ok((Token::Text(*byte), 0)),
        };
        match found {
            Ok((token, taken)) => {
                self.rest = after.get(taken..).unwrap_or(&[]);
                Some(Ok(Placed { token, place }))
            }
            Err(name) => {
                self.rest = &[];
                Some(Err(Faulty { name, place }))
            }
        }
    }
}

fn is_layout(byte: u8) -> bool {
    matches!(byte, b'\r' | b'\n')
}

// The token of the bytes after a backslash, and how many of them it takes; where it is faulty, its name if it is a word.
fn control<'a>(bytes: &'a [u8]) -> Result<(Token<'a>, usize), Option<&'a str>> {
    match bytes {
        [b'\'', high, low, ..] => {
            let byte = hex(*high, *low).ok_or(None)?;
            Ok((Token::Hex(byte), 3))
        }
        [b'\'', ..] | [] => Err(None),
        [letter, ..] if letter.is_ascii_alphabetic() => word(bytes).map_err(Some),
        [symbol, ..] => Ok((Token::Symbol(*symbol), 1)),
    }
}

fn hex(high: u8, low: u8) -> Option<u8> {
    Some(16 * hex_value(high)? + hex_value(low)?)
}

// By ranges, apart from the library's lexer, which calls `to_digit`: that would be compared with itself.
fn hex_value(digit: u8) -> Option<u8>
    ensures { IfSome result (λ value. value < 16) }
{
    match digit {
        b'0'..=b'9' => Some(digit - b'0'),
        b'a'..=b'f' => Some(digit - b'a' + 10),
        b'A'..=b'F' => Some(digit - b'A' + 10),
        _ => None,
    }
}

// A word with its number, the space after it and the data of `\bin`; its name where it is faulty.
fn word<'a>(bytes: &'a [u8]) -> Result<(Token<'a>, usize), &'a str> {
    let (name, after) = split_text(bytes, name_length(bytes));
    let (digits, after) = split_text(after, number_length(after));
    if name.len() > 32 || digits.trim_start_matches('-').len() > 10 {
        return Err(name);
    }
    let number = match digits {
        "" => None,
        _ => Some(digits.parse::<i32>().map_err(|_| name)?),
    };
    let after = after.strip_prefix(b" ").unwrap_or(after);
    let after = after.get(data_length(name, number)..).ok_or(name)?;
    let taken = bytes.len().saturating_sub(after.len());
    Ok((Token::Word(name, number), taken))
}

fn name_length(bytes: &[u8]) -> usize {
    bytes.iter().take_while(|b| b.is_ascii_alphabetic()).count()
}

// Digits, or a minus and digits. A minus alone is text.
fn number_length(bytes: &[u8]) -> usize {
    let minus = usize::from(bytes.starts_with(b"-"));
    let digits = bytes.iter().skip(minus).take_while(|b| b.is_ascii_digit());
    match digits.count() {
        0 => 0,
        count => minus.saturating_add(count),
    }
}

fn data_length(name: &str, number: Option<i32>) -> usize {
    match number {
        Some(count) if name == "bin" => usize::try_from(count).unwrap_or(0),
        _ => 0,
    }
}

// The text of so many bytes of ASCII, and the bytes after it.
fn split_text<'a>(bytes: &'a [u8], length: usize) -> (&'a str, &'a [u8]) {
    let (text, rest) = bytes.split_at_checked(length).unwrap_or((bytes, &[]));
    (from_utf8(text).unwrap_or(""), rest)
}
