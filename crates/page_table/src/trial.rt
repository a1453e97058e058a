// Tries a page on every byte, and on every character below a limit, and counts.
ghost use Rattle.std.specs.Prelude.{◌≤◌};

use crate::listed::Listed;
use pages::CodePage;

// The characters below this are tried: all that the pages have are, and no surrogate is.
const LIMIT: u32 = 0x3000;

// How many have a partner on the page, and how many have another on the list.
#[derive(Clone, Copy)]
pub struct Tally {
    pub have: usize,
    pub differ: usize,
}

// Each byte, with its character. A loop that counts both, since the page is asked once for each.
pub fn decode_all<P: CodePage>(page: &P, list: &Listed) -> Tally
    ensures { result.differ ≤ 256 }
{
    let number = page.number();
    let mut have = 0;
    let mut differ = 0;
    for byte in 0..=u8::MAX {
        let decoded = page.decode(byte);
        have += usize::from(decoded.is_some());
        differ += usize::from(list.character(number, byte) != Some(decoded));
    }
    Tally { have, differ }
}

// Each character, with its byte. One function for both would be no plainer: the list also has bytes with no character, but no character
// with no byte, so its two answers are compared differently.
pub fn encode_all<P: CodePage>(page: &P, list: &Listed) -> Tally
    ensures { result.differ ≤ 0x3000 }
{
    let number = page.number();
    let mut have = 0;
    let mut differ = 0;
    for code in 0..LIMIT {
        let Some(character) = char::from_u32(code) else {
            continue;
        };
        let encoded = page.encode(character);
        have += usize::from(encoded.is_some());
        differ += usize::from(list.byte(number, character) != encoded);
    }
    Tally { have, differ }
}
