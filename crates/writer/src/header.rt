// The bytes before what is typed.
ghost use Rattle.std.specs.Prelude.{◌≡◌};
ghost use Rattle.writer.specs.Header.{mark_of, start_of, header as header_of};

use crate::fixed::append;
use arrayvec::ArrayVec;
use itoa::Buffer;
use records::Kind;

// The most bytes that a header has: that of HTML, in a page whose number has five digits.
const ROOM: usize = 101;

// What a header has before the number of its code page, and after the mark of its kind.
const HEAD: &[u8] = b"{\\rtf1\\ansi\\ansicpg";

const FONTS: &[u8] = b"\\deff0{\\fonttbl{\\f0\\fswiss Arial;}}\\uc1\\pard\\plain\\f0";

// The word that says which kind the record encapsulates.
fn mark_of(kind: Kind) -> &'static [u8]
    ensures { result.now ≡ mark_of kind }
{
    match kind {
        Kind::Html => b"\\fromhtml1",
        Kind::Text => b"\\fromtext",
    }
}

// What ends the header: an empty tag group, or the space of its last word.
fn start_of(kind: Kind) -> &'static [u8]
    ensures { result.now ≡ start_of kind }
{
    match kind {
        Kind::Html => b"{\\*\\htmltag64}",
        Kind::Text => b" ",
    }
}

// The header of a record of a kind, in the code page of a number.
pub fn header(number: u16, kind: Kind) -> ArrayVec<u8, ROOM>
    ensures { result.items ≡ header_of number kind }
{
    let mut bytes = ArrayVec::new();
    append(&mut bytes, HEAD);
    append(&mut bytes, Buffer::new().format(number).as_bytes());
    append(&mut bytes, mark_of(kind));
    append(&mut bytes, FONTS);
    append(&mut bytes, start_of(kind));
    bytes
}
