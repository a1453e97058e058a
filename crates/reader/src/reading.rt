// Reading a record: its kind, and its content into a buffer.
ghost use Rattle.std.specs.Prelude.{◌≡◌, ℕ, List, [], ◌++◌, length};
ghost use Rattle.std.proofs.Math.Utf8.{encodes};
ghost use Rattle.reader.specs.Guarded.{Holds, Keeps, Filled, ToldInto};
ghost use Rattle.reader.specs.Pieces.{characters_of};
ghost use Rattle.reader.specs.Reading.{content_of, record_of, read_of, Told};

use crate::assemble::{Half, Joined, Piece, join};
use crate::faults::ReadFault;
use crate::guard::Guard;
use crate::recognise::{check_page, recognise};
use crate::sound::sound_record;
use crate::state::ReadingState;
use crate::walk::Effects;
use groups::MAX_OPEN;
use pages::CodePage;
use records::Kind;

// What an accepted reading tells.
#[derive(Clone, Copy, PartialEq, Eq, Debug)]
pub struct Reading {
    pub kind: Kind,
    pub length: usize,
}

// Adds a piece to the content, as UTF-8.
fn put_piece(piece: Piece, out: &mut Guard<'_>)
    ensures value { (content : List ℕ) → Holds content out.old → Holds (content ++ encodes (characters_of piece)) out.new }
    ensures keeps { Keeps out.old out.new }
{
    match piece {
        Piece::Character(character) => {
            let mut room = [0; 4];
            out.push(character.encode_utf8(&mut room).as_bytes());
        }
        Piece::Text(text) => out.push(text.as_bytes()),
    }
}

// The content of a record, as UTF-8, into a result that holds nothing yet.
fn put_content<P: CodePage>(
    record: &[u8],
    kind: Kind,
    page: &P,
    out: &mut Guard<'_>,
) -> Result<(), ReadFault>
    requires { Holds [] out.old }
    ensures value { Filled (content_of (P.CodePage.decoded page.now) kind «record».now) result out.new }
    ensures keeps { Keeps out.old out.new }
{
    let mut room = [ReadingState::outermost(); MAX_OPEN];
    let mut effects = Effects::new(record, kind, &mut room);
    let mut waiting: Option<Half> = None;
    while let Some(placed) = effects.next_effect() {
        match join(page, waiting, placed.effect, placed.place)? {
            Joined::Waits(half) => waiting = Some(half),
            Joined::Made(piece) => {
                waiting = None;
                put_piece(piece, out);
                // Plain text is its own content, since ASCII is the same in every code page.
                out.push(effects.text());
            }
        }
    }
    match waiting {
        Some(half) => Err(ReadFault::LoneHalf(half.place)),
        None => Ok(()),
    }
}

// All checks in their order, and the content into the result.
fn read_into<P: CodePage>(bytes: &[u8], page: &P, out: &mut Guard<'_>) -> Result<Reading, ReadFault>
    requires { Holds [] out.old }
    ensures value { ToldInto (read_of (P.CodePage.number page.now) (P.CodePage.decoded page.now) (length out.old.bytes.now) bytes.now) result out.new }
    ensures keeps { Keeps out.old out.new }
{
    let record = sound_record(bytes)?;
    let kind = recognise(record)?;
    check_page(record, page.number())?;
    put_content(record, kind, page, out)?;
    match out.length() {
        Some(length) => Ok(Reading { kind, length }),
        None => Err(ReadFault::ShortBuffer),
    }
}

// The kind and the content of the record that the bytes are, in a code page. The result then holds the content and zeros after
// it; where the reading is refused it holds only zeros.
pub fn read<P: CodePage>(bytes: &[u8], page: &P, out: &mut [u8]) -> Result<Reading, ReadFault>
    ensures { Told (read_of (P.CodePage.number page.now) (P.CodePage.decoded page.now) (length out.old) bytes.now) (length out.old) result out.new }
{
    let mut guard = Guard::new(out);
    let reading = read_into(bytes, page, &mut guard)?;
    guard.accept();
    Ok(reading)
}
