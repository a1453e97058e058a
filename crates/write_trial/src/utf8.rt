// The characters of UTF-8, byte by byte: a sequence is judged by the number that it gives. `from_utf8` is what the library
// calls, so it would be compared with itself.
use layers::Refusal;
use std::alloc::Global;
use trials::{Reason, Stop};

// A sequence that has begun.
#[derive(Clone, Copy)]
struct Sequence {
    begins: usize,
    // How many bytes are still to come.
    left: u32,
    code: u32,
    // The least number that needs so many bytes.
    least: u32,
}

impl Sequence {
    // What a first byte begins; an ASCII byte begins a sequence that is whole.
    fn begin(begins: usize, byte: u8) -> Result<Sequence, Refusal> {
        let (left, code, least) = match byte {
            0..=0x7F => (0, byte, 0),
            0xC0..=0xDF => (1, byte & 0x1F, 0x80),
            0xE0..=0xEF => (2, byte & 0x0F, 0x800),
            0xF0..=0xF7 => (3, byte & 0x07, 0x10000),
            _ => return Err(Reason::NotUtf8.at(begins)),
        };
        Ok(Sequence {
            begins,
            left,
            code: u32::from(code),
            least,
        })
    }

    // The sequence with one byte more.
    fn go_on(self, byte: u8) -> Result<Sequence, Refusal> {
        if byte & 0xC0 != 0x80 {
            return Err(self.refusal());
        }
        Ok(Sequence {
            left: self.left.saturating_sub(1),
            code: self.code.wrapping_mul(64) | u32::from(byte & 0x3F),
            ..self
        })
    }

    fn refusal(self) -> Refusal {
        Reason::NotUtf8.at(self.begins)
    }

    // The character of a whole sequence.
    fn character(self) -> Result<char, Refusal> {
        char::from_u32(self.code)
            .filter(|_| self.code >= self.least)
            .ok_or(self.refusal())
    }
}

// The text of bytes, or a refusal at the first that begins no sequence.
pub fn decode(heap: Global, bytes: &[u8]) -> Result<String, Stop> {
    let mut text = String::new(heap);
    let mut begun: Option<Sequence> = None;
    for (place, byte) in bytes.iter().enumerate() {
        let sequence = match begun.take() {
            Some(sequence) => sequence.go_on(*byte)?,
            None => Sequence::begin(place, *byte)?,
        };
        if sequence.left == 0 {
            text.push(sequence.character()?)?;
        } else {
            begun = Some(sequence);
        }
    }
    match begun {
        Some(sequence) => Err(sequence.refusal().into()),
        None => Ok(text),
    }
}
