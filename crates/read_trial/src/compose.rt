// The content of a record's tokens, token by token.
use crate::signs::{Sign, is_silent, symbol_sign, word_sign};
use layers::Refusal;
use records::Kind;
use std::alloc::Global;
use trials::{Page, Placed, Reason, Stop, Token};

// What a group is to its content.
#[derive(Clone, Copy, PartialEq, Eq)]
enum Role {
    Plain,
    // What it has is the content of a tag.
    Tag,
    // What it has is no content.
    Silent,
}

// What a group has of its own.
#[derive(Clone, Copy)]
struct Group {
    role: Role,
    suppressed: bool,
    fallback: u32,
}

// A high half that waits for its low half.
#[derive(Clone, Copy)]
struct Half {
    unit: u16,
    place: usize,
}

#[derive(Drop)]
struct Composer<'a> {
    page: &'a Page,
    kind: Kind,
    // The groups around the innermost one.
    outer: Vec<Group>,
    group: Group,
    // Fallback tokens still to be skipped.
    skip: u32,
    half: Option<Half>,
    content: String,
}

// The last token is the brace that closes the record, and adds nothing.
pub fn compose(
    heap: Global,
    tokens: &[Placed<'_>],
    kind: Kind,
    page: &Page,
) -> Result<String, Stop> {
    let mut composer = Composer {
        page,
        kind,
        outer: Vec::new(heap),
        group: Group {
            role: Role::Plain,
            suppressed: false,
            fallback: 1,
        },
        skip: 0,
        half: None,
        content: String::new(heap),
    };
    for pair in tokens.windows(2) {
        if let [placed, next] = pair {
            composer.take(placed, next.token)?;
        }
    }
    composer.part()?;
    Ok(composer.content)
}

impl Composer<'_> {
    fn take(&mut self, placed: &Placed<'_>, next: Token<'_>) -> Result<(), Stop> {
        match placed.token {
            Token::Open => {
                self.skip = 0;
                self.outer.push(self.group)?;
            }
            Token::Close => {
                self.skip = 0;
                self.group = self.outer.pop().unwrap_or(self.group);
            }
            _ if self.skip > 0 => self.skip -= 1,
            _ if self.group.role == Role::Silent => {}
            token => self.heard(token, placed.place, next)?,
        }
        Ok(())
    }

    // A token that is neither skipped nor in a silent group.
    fn heard(&mut self, token: Token<'_>, place: usize, next: Token<'_>) -> Result<(), Stop> {
        let html = self.kind.is_html();
        match (token, self.group.role) {
            (Token::Word("htmlrtf", number), Role::Plain) if html => {
                self.group.suppressed = number != Some(0);
            }
            _ if html && self.group.suppressed => {}
            (Token::Symbol(b'*'), Role::Plain) => {
                let tag = html && matches!(next, Token::Word("htmltag", _));
                self.group.role = if tag { Role::Tag } else { Role::Silent };
            }
            (Token::Word(name, _), Role::Plain) if is_silent(name) => {
                self.group.role = Role::Silent;
            }
            _ => self.plain(token, place)?,
        }
        Ok(())
    }

    // A token that may add to the content.
    fn plain(&mut self, token: Token<'_>, place: usize) -> Result<(), Stop> {
        match token {
            Token::Hex(byte) | Token::Text(byte) => self.byte(byte, place),
            Token::Symbol(b'\r' | b'\n') => self.text("\r\n"),
            Token::Symbol(b'{') => self.text("{"),
            Token::Symbol(b'}') => self.text("}"),
            Token::Symbol(b'\\') => self.text("\\"),
            Token::Symbol(symbol) => self.sign(symbol_sign(symbol)),
            Token::Word(name, number) => self.word(name, number, place),
            Token::Open | Token::Close => Ok(()),
        }
    }

    fn word(&mut self, name: &str, number: Option<i32>, place: usize) -> Result<(), Stop> {
        match (name, number) {
            ("par" | "line", _) => self.text("\r\n"),
            ("tab", _) => self.text("\t"),
            ("uc", Some(count)) => {
                self.group.fallback = u32::try_from(count).unwrap_or(self.group.fallback);
                Ok(())
            }
            ("u", Some(number)) => {
                self.skip = self.group.fallback;
                self.unit(number, place)
            }
            _ => self.sign(word_sign(name)),
        }
    }

    // A high half that waited has met something else than its low half.
    fn part(&self) -> Result<(), Refusal> {
        match self.half {
            Some(half) => Err(Reason::LoneHalf.at(half.place)),
            None => Ok(()),
        }
    }

    fn text(&mut self, text: &str) -> Result<(), Stop> {
        self.part()?;
        self.content.push_str(text)?;
        Ok(())
    }

    // A character that has a name in HTML, if there is one.
    fn sign(&mut self, sign: Option<Sign>) -> Result<(), Stop> {
        match sign {
            Some(sign) if self.kind.is_html() => self.text(sign.entity),
            Some(sign) => {
                self.part()?;
                self.content.push(sign.character)?;
                Ok(())
            }
            None => Ok(()),
        }
    }

    fn byte(&mut self, byte: u8, place: usize) -> Result<(), Stop> {
        self.part()?;
        let character = self.page.character(byte);
        let character = character.ok_or(Reason::NoCharacter.at(place))?;
        self.content.push(character)?;
        Ok(())
    }

    // The unit of a `\u`, by its number as written.
    fn unit(&mut self, number: i32, place: usize) -> Result<(), Stop> {
        let Some(unit) = unit_of(number) else {
            self.part()?;
            return Err(Reason::NoUnit.at(place).into());
        };
        match (self.half, unit) {
            (Some(half), 0xDC00..=0xDFFF) => {
                self.half = None;
                self.units(&[half.unit, unit], half.place)
            }
            (None, 0xD800..=0xDBFF) => {
                self.half = Some(Half { unit, place });
                Ok(())
            }
            _ => {
                self.part()?;
                self.units(&[unit], place)
            }
        }
    }

    // The character of one unit or of two halves. Only a low half alone has none.
    fn units(&mut self, units: &[u16], place: usize) -> Result<(), Stop> {
        for character in char::decode_utf16(units.iter().copied()) {
            let character = character.map_err(|_| Reason::LoneHalf.at(place))?;
            self.content.push(character)?;
        }
        Ok(())
    }
}

// A unit may be written with a sign or without. By ranges and a sum, apart from the library, which converts the number by
// calls that would be compared with themselves.
fn unit_of(number: i32) -> Option<u16> {
    match number {
        0..=65_535 => Some(number as u16),
        -32_768..=-1 => Some((number + 65_536) as u16),
        _ => None,
    }
}
