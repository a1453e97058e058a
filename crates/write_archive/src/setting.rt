// The first line: in which page to write, how much space there is, and where.
use std::num::IntErrorKind;
use std::str::FromStr;
use thiserror::Error;

#[derive(Clone, Copy)]
pub enum Page {
    Windows1252,
    Windows1251,
    Ascii20127,
}

#[derive(Clone, Copy)]
pub enum Place {
    Buffer,
    Cards,
}

#[derive(Clone, Copy)]
pub struct Setting {
    pub page: Page,
    pub space: usize,
    pub place: Place,
}

// A line that is no setting.
#[derive(Clone, Copy, Debug, Error)]
#[error("expected: page N space S sink buffer|cards")]
pub struct NoSetting;

// Reads `page N space S sink buffer|cards`.
impl FromStr for Setting {
    type Err = NoSetting;

    fn from_str(line: &str) -> Result<Setting, NoSetting> {
        let mut words = line.split(' ');
        let page = after(words.next(), "page", words.next())?.parse::<Page>()?;
        let space = parse_space(after(words.next(), "space", words.next())?)?;
        let place = after(words.next(), "sink", words.next())?.parse::<Place>()?;
        match words.next() {
            Some(_) => Err(NoSetting),
            None => Ok(Setting { page, space, place }),
        }
    }
}

impl FromStr for Page {
    type Err = NoSetting;

    fn from_str(word: &str) -> Result<Page, NoSetting> {
        match word {
            "1252" => Ok(Page::Windows1252),
            "1251" => Ok(Page::Windows1251),
            "20127" => Ok(Page::Ascii20127),
            _ => Err(NoSetting),
        }
    }
}

impl FromStr for Place {
    type Err = NoSetting;

    fn from_str(word: &str) -> Result<Place, NoSetting> {
        match word {
            "buffer" => Ok(Place::Buffer),
            "cards" => Ok(Place::Cards),
            _ => Err(NoSetting),
        }
    }
}

// The word after the one that names it.
fn after<'a>(
    word: Option<&'a str>,
    name: &str,
    next: Option<&'a str>,
) -> Result<&'a str, NoSetting> {
    match (word, next) {
        (Some(word), Some(next)) if word == name => Ok(next),
        _ => Err(NoSetting),
    }
}

// A number that is too large to be one is as much space as can be told.
fn parse_space(word: &str) -> Result<usize, NoSetting> {
    word.parse::<usize>().or_else(|e| match e.kind() {
        IntErrorKind::PosOverflow => Ok(usize::MAX),
        _ => Err(NoSetting),
    })
}
