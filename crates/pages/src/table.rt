// Code pages that are given by a table of their characters.
ghost use Rattle.std.specs.Prelude.{◌≡◌, ℕ, ◌<◌, ◌≤◌, List, Option, map};
ghost use Rattle.pages.specs.Page.{char_of, byte_of};
ghost use Rattle.pages.specs.Computed as computed;
ghost use Rattle.pages.specs.Computed.{Computed};
ghost use Rattle.pages.specs.Distinct as distinct;
ghost use Rattle.pages.specs.Codes.{code_of, upper_place};

use crate::page::CodePage;

// A page's entries by byte as characters, `None` where a byte has none.
macro_rules! characters {
    ($($entry:tt),* $(,)?) => { [$(characters!(@ $entry)),*] };
    (@ None) => { None };
    (@ $character:literal) => { Some($character) };
}

// The same entries as codes. The code of no character is a surrogate, which no `char` is, so it is never taken for one.
macro_rules! codes {
    ($($entry:tt),* $(,)?) => { [$(codes!(@ $entry)),*] };
    (@ None) => { 0xD800 };
    (@ $character:literal) => { $character as u16 };
}

pub(crate) use characters;
pub(crate) use codes;

// A page that is given by a table. It then is a code page, by the one impl below.
pub trait TablePage {
    // The number that names the page.
    const NUMBER: u16;

    ghost NUMBER: { ℕ };

    // The characters by byte.
    ghost characters: { List (Option ℕ) };

    fn table() -> &'static [Option<char>; 256]
        ensures { result.now ≡ characters };

    // The codes of the characters by byte, in which a character is sought.
    fn codes() -> &'static [u16; 256]
        ensures { result.now ≡ map code_of characters };

    // The number fits in 16 bits, and 0 names no page.
    ghost in_range: { (1 ≤ NUMBER) × (NUMBER ≤ 65535) };

    // What is computed once of the whole table: the laws of a code page follow from it.
    ghost facts: { Computed characters };
}

impl<T: TablePage> CodePage for T {
    ghost number = { λ _. T.NUMBER };

    ghost decoded = { λ _ b. char_of T.characters b };

    ghost encoded = { λ _ c. byte_of T.characters c };

    ghost numbered = { λ _. T.in_range };

    ghost ascii = { λ _ b h. computed.ascii _ T.facts b h };

    ghost there = { λ _ b c e. distinct.there _ T.facts.once b c e };

    ghost back = { λ _ b c e. distinct.back _ b c e };

    ghost bytes = { λ _ b c e. computed.bytes _ T.facts b c e };

    ghost scalars = { λ _ b c e. computed.scalars _ T.facts b c e };

    fn number(&self) -> u16 {
        T::NUMBER
    }

    fn decode(&self, byte: u8) -> Option<char> {
        T::table()[usize::from(byte)]
    }

    fn encode(&self, character: char) -> Option<u8> {
        if character.is_ascii() {
            return Some(character as u8);
        }
        upper_place(T::codes(), character).map(|place| (128 + place) as u8)
    }
}

// The first place at which the character stands from 128 on, counted from there: below it is ASCII, which needs no search.
// It is sought forward and among codes, since the compiler then compares many at once, which it cannot with an `Option<char>`.
fn upper_place(codes: &[u16; 256], character: char) -> Option<usize>
    ensures { result ≡ upper_place codes.now character }
{
    codes[128..]
        .iter()
        .position(|code| u32::from(*code) == u32::from(character))
}
