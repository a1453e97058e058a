// How what was typed is spelled in a record.
ghost use Rattle.std.specs.Prelude.{◌≡◌, ◌+◌, ◌<◌, ◌≤◌, [], ◌++◌};
ghost use Rattle.std.specs.List.{flat_map};
ghost use Rattle.std.specs.Char.{digit_char};
ghost use Rattle.arrayvec.specs.ArrayVec.{array_vec_len};
ghost use Rattle.writer.specs.Spelling.{hexed, spelled_unit, units, spelled_key};
ghost use Rattle.writer.specs.Shown.{shown_key};

use crate::fixed::append;
use crate::keys::Key;
use arrayvec::ArrayVec;
use itoa::Buffer;
use pages::CodePage;

// The most bytes that a key is spelled by: those of a character of two units, each as long as `\u-32768?`.
const ROOM: usize = 18;

// The bytes that stand for a key.
pub type Spelling = ArrayVec<u8, ROOM>;

// A key as a record spells it. It is inlined, so that the bytes are read where they were written: copying them costs more than
// writing them.
#[inline(always)]
pub fn spelled<P: CodePage>(page: &P, key: Key) -> Spelling
    ensures { result.items ≡ spelled_key (P.CodePage.encoded page.now) (shown_key key) }
{
    let mut spelling = ArrayVec::new();
    append_key(&mut spelling, page, key);
    spelling
}

// Spells a key into a spelling with no bytes.
fn append_key<P: CodePage>(spelling: &mut Spelling, page: &P, key: Key)
    requires { spelling.old.items ≡ [] }
    ensures { spelling.new.items ≡ spelled_key (P.CodePage.encoded page.now) (shown_key key) }
{
    match key {
        Key::Break => append(spelling, b"\\par "),
        Key::Character('\t') => append(spelling, b"\\tab "),
        Key::Character(character @ ('{' | '}' | '\\')) => {
            spelling.push(b'\\');
            spelling.push(character as u8);
        }
        Key::Character(character @ ' '..='~') => spelling.push(character as u8),
        Key::Character(character) => match page.encode(character) {
            Some(byte) => append(spelling, &hexed(byte)),
            None => append_units(spelling, character),
        },
    }
}

// A byte by two hexadecimal digits.
fn hexed(byte: u8) -> [u8; 4]
    ensures { result ≡ hexed byte }
{
    [b'\\', b'\'', hex_digit(byte / 16), hex_digit(byte % 16)]
}

fn hex_digit(digit: u8) -> u8
    requires { digit < 16 }
    ensures { result ≡ digit_char digit }
{
    b"0123456789abcdef"[usize::from(digit)]
}

// A character by its one or two units of 16 bits, each by its number, with `?` for readers that do not know `\u`.
fn append_units(spelling: &mut Spelling, character: char)
    requires { spelling.old.items ≡ [] }
    ensures { spelling.new.items ≡ flat_map spelled_unit (units character) }
{
    let mut units = [0; 2];
    for unit in character.encode_utf16(&mut units).iter() {
        append_unit(spelling, *unit);
    }
}

// The number of a unit is from -32,768 to 32,767.
fn append_unit(spelling: &mut Spelling, unit: u16)
    requires { array_vec_len spelling.old ≤ 9 }
    ensures items { spelling.new.items ≡ spelling.old.items ++ spelled_unit unit }
    ensures len { array_vec_len spelling.new ≤ array_vec_len spelling.old + 9 }
{
    append(spelling, b"\\u");
    append(
        spelling,
        Buffer::new().format(unit.cast_signed()).as_bytes(),
    );
    spelling.push(b'?');
}
