// The spelling of a text, as text that grows.
use std::alloc::{AllocError, Global};
use std::fmt::Write;
use trials::Page;

// The spelling of a piece: a CR with an LF after it is one line break.
pub fn spell(heap: Global, text: &str, page: &Page) -> Result<String, AllocError> {
    let mut spelled = String::new(heap);
    for (index, line) in text.split("\r\n").enumerate() {
        if index > 0 {
            spelled.push_str("\\par ")?;
        }
        for character in line.chars() {
            push_character(&mut spelled, character, page)?;
        }
    }
    Ok(spelled)
}

fn push_character(spelled: &mut String, character: char, page: &Page) -> Result<(), AllocError> {
    match character {
        '\t' => spelled.push_str("\\tab "),
        '{' | '}' | '\\' => write!(spelled, "\\{character}"),
        ' '..='~' => spelled.push(character),
        _ => match page.byte(character) {
            Some(byte) => write!(spelled, "\\'{byte:02x}"),
            None => push_units(spelled, character),
        },
    }
}

// One unit, or two halves: the upper ten bits, less the 64 that are always there, and the lower ten. By arithmetic, apart from
// the library, which calls `encode_utf16` and `cast_signed`: they would be compared with themselves.
fn push_units(spelled: &mut String, character: char) -> Result<(), AllocError> {
    let code = u32::from(character);
    match u16::try_from(code) {
        Ok(unit) => push_unit(spelled, unit),
        Err(_) => {
            push_unit(spelled, half(0xD800, (code >> 10).saturating_sub(64)))?;
            push_unit(spelled, half(0xDC00, code))
        }
    }
}

// A mark, and the lower ten bits.
fn half(mark: u16, bits: u32) -> u16 {
    mark | (bits & 0x3FF) as u16
}

// A unit as a number with a sign.
fn push_unit(spelled: &mut String, unit: u16) -> Result<(), AllocError> {
    let number = match unit {
        0..=0x7FFF => i32::from(unit),
        _ => i32::from(unit) - 0x10000,
    };
    write!(spelled, "\\u{number}?")
}
