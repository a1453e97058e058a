// From effects to characters: pairs of halves, and bytes in the code page.
ghost use Rattle.std.specs.Prelude.{◌≡◌};
ghost use Rattle.reader.specs.Content.{is_high, is_low, pair_of, making, alone as alone_of, second as second_of, first as first_of, make};
ghost use Rattle.reader.specs.Pieces.{characters_of, shown_joined};
ghost use Rattle.reader.specs.Shown.{shown_effect};

use crate::faults::ReadFault;
use crate::rules::Effect;
use pages::CodePage;

// The first half of a character, which waits for its second, with the place of its token.
#[derive(Clone, Copy)]
pub struct Half {
    pub unit: u16,
    pub place: usize,
}

// What an effect adds to the content.
#[derive(Clone, Copy)]
pub enum Piece {
    Character(char),
    Text(&'static str),
}

// What one effect makes: a piece, or a half that waits for its second.
#[derive(Clone, Copy)]
pub enum Joined {
    Made(Piece),
    Waits(Half),
}

fn is_high(unit: u16) -> bool
    ensures { result ≡ is_high unit }
{
    matches!(unit, 0xD800..=0xDBFF)
}

fn is_low(unit: u16) -> bool
    ensures { result ≡ is_low unit }
{
    matches!(unit, 0xDC00..=0xDFFF)
}

// The character of two halves: the ten low bits of each.
fn pair(high: u16, low: u16) -> char
    ensures { result ≡ pair_of high low }
{
    let code = 0x10000 + u32::from(high) % 0x400 * 0x400 + u32::from(low) % 0x400;
    char::from_u32(code).unwrap()
}

fn made(piece: Piece) -> Result<Joined, ReadFault>
    ensures { shown_joined result ≡ making (characters_of piece) }
{
    Ok(Joined::Made(piece))
}

// A unit where no half waits.
fn alone(unit: u16, place: usize) -> Result<Joined, ReadFault>
    ensures { shown_joined result ≡ alone_of unit place }
{
    if is_high(unit) {
        return Ok(Joined::Waits(Half { unit, place }));
    }
    if is_low(unit) {
        return Err(ReadFault::LoneHalf(place));
    }
    made(Piece::Character(char::from_u32(u32::from(unit)).unwrap()))
}

// An effect directly after a half.
fn second(half: Half, effect: Effect) -> Result<Joined, ReadFault>
    ensures { shown_joined result ≡ second_of half (shown_effect effect) }
{
    match effect {
        Effect::Unit(unit) if is_low(unit) => made(Piece::Character(pair(half.unit, unit))),
        _ => Err(ReadFault::LoneHalf(half.place)),
    }
}

// An effect where no half waits.
fn first<P: CodePage>(page: &P, effect: Effect, place: usize) -> Result<Joined, ReadFault>
    ensures { shown_joined result ≡ first_of (P.CodePage.decoded page.now) (shown_effect effect) place }
{
    match effect {
        Effect::Unit(unit) => alone(unit, place),
        Effect::Byte(byte) => match page.decode(byte) {
            Some(character) => made(Piece::Character(character)),
            None => Err(ReadFault::NoCharacter(place)),
        },
        Effect::Given(text) => made(Piece::Text(text)),
        Effect::Beyond => Err(ReadFault::NoUnit(place)),
    }
}

// What an effect makes, after a half that waits or none.
pub fn join<P: CodePage>(
    page: &P,
    waiting: Option<Half>,
    effect: Effect,
    place: usize,
) -> Result<Joined, ReadFault>
    ensures { shown_joined result ≡ make (P.CodePage.decoded page.now) waiting (shown_effect effect) place }
{
    match waiting {
        Some(half) => second(half, effect),
        None => first(page, effect, place),
    }
}
