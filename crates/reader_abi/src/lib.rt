// Reading in code page 1252, for callers in C and Rust.
#![tactic(auto)]

ghost use Rattle.std.specs.Prelude.{length};
ghost use Rattle.pages.specs.Page.{char_of};
ghost use Rattle.pages.specs.Windows.{chars1252};
ghost use Rattle.reader.specs.Reading.{read_of};
ghost use Rattle.reader_abi.specs.Answers.{Answered};

use layers::Fault;
use pages::{CodePage, Windows1252};
use reader::read;

// What a reading tells, laid out for C: numbers and flags, and no enum.
#[repr(C)]
pub struct Answer {
    // The number of the refusal, or 0 where the reading was accepted.
    pub refusal: u8,
    pub html: bool,
    // The place of the refusal.
    pub place: usize,
    // How long the content is.
    pub length: usize,
}

// Reads a record. The result then holds the content and zeros after it, or only zeros.
#[unsafe(no_mangle)]
pub extern "C" fn fisnaok_read_1252(bytes: &[u8], out: &mut [u8]) -> Answer
    ensures { Answered (read_of 1252 (char_of chars1252) (length out.old) bytes.now) (length out.old) result out.new }
{
    match read(bytes, &Windows1252, out) {
        Ok(reading) => Answer {
            refusal: 0,
            html: reading.kind.is_html(),
            place: 0,
            length: reading.length,
        },
        Err(fault) => Answer {
            refusal: fault.number(),
            html: false,
            place: fault.place(),
            length: 0,
        },
    }
}
