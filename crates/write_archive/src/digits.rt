// Bytes by two digits of lower-case hexadecimal each.
use hex::{FromHexError, decode};
use std::alloc::{AllocError, Global};

// The bytes of a text of digits, or none where it is no such text. `decode` takes capitals too, and asks for memory before it
// looks at a digit, so what is no digit is refused here. An odd number of them it refuses at once.
pub fn parse_digits(heap: Global, text: &str) -> Result<Option<Vec<u8>>, AllocError> {
    if !text.bytes().all(is_digit) {
        return Ok(None);
    }
    match decode(heap, text) {
        Ok(bytes) => Ok(Some(bytes)),
        Err(FromHexError::OutOfMemory) => Err(AllocError),
        Err(_) => Ok(None),
    }
}

fn is_digit(byte: u8) -> bool {
    matches!(byte, b'0'..=b'9' | b'a'..=b'f')
}
