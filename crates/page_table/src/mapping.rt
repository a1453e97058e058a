// A line of the list of mappings, as `1252 80 20AC` or `1252 81 none`.

use std::num::ParseIntError;
use std::str::FromStr;

// What the list says of one byte of one page.
#[derive(Clone, Copy)]
pub struct Mapping {
    pub page: u16,
    pub byte: u8,
    pub character: Option<char>,
}

// That a line is no mapping.
#[derive(Debug, Drop)]
pub struct NoMapping;

impl From<ParseIntError> for NoMapping {
    fn from(_: ParseIntError) -> Self {
        NoMapping
    }
}

// A mapping is three words, of which the last two are hexadecimal, and of a page that there is.
impl FromStr for Mapping {
    type Err = NoMapping;

    fn from_str(line: &str) -> Result<Self, NoMapping> {
        let mut words = line.split(' ');
        let page = page_in(words.next().ok_or(NoMapping)?)?;
        let byte = u8::from_str_radix(words.next().ok_or(NoMapping)?, 16)?;
        let character = character_in(words.next().ok_or(NoMapping)?)?;
        if words.next().is_some() {
            return Err(NoMapping);
        }
        Ok(Mapping {
            page,
            byte,
            character,
        })
    }
}

fn page_in(word: &str) -> Result<u16, NoMapping> {
    match word.parse()? {
        page @ (1251 | 1252 | 20127) => Ok(page),
        _ => Err(NoMapping),
    }
}

// None where the word says that there is none.
fn character_in(word: &str) -> Result<Option<char>, NoMapping> {
    if word == "none" {
        return Ok(None);
    }
    let code = u32::from_str_radix(word, 16)?;
    char::from_u32(code).map(Some).ok_or(NoMapping)
}
