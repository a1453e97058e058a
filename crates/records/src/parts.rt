// Taking apart: the first record of given bytes, and the rest.
ghost use Rattle.std.specs.Prelude.{◌≡◌, ℕ, List, ◌++◌, length, IfOk, Ok as Taken};
ghost use Rattle.records.specs.Apart.{is_rtf, first_end};
ghost use Rattle.records.specs.Shown.{Halves};

use crate::faults::RecordFault;
use groups::group_end;

// What a record begins with.
const SIGNATURE: &[u8] = b"{\\rtf1";

// A part of given bytes, with its place there.
#[derive(Clone, Copy)]
pub struct Part<'a> {
    pub bytes: &'a [u8],
    pub place: usize,
}

// The first record, up to the brace that closes its first group, and the rest.
pub fn take_apart<'a>(bytes: &'a [u8]) -> Result<(Part<'a>, Part<'a>), RecordFault>
    ensures value { Halves bytes.now result }
    ensures joined { IfOk result (λ p. p.0.bytes.now ++ p.1.bytes.now ≡ bytes.now) }
    ensures alone { IfOk result (λ p. (more : List ℕ) → first_end (p.0.bytes.now ++ more) ≡ Taken (length p.0.bytes.now)) }
{
    if !is_rtf(bytes) {
        return Err(RecordFault::NotRtf);
    }
    let end = group_end(bytes, 0)?;
    let record = Part {
        bytes: &bytes[0..end],
        place: 0,
    };
    let rest = Part {
        bytes: &bytes[end..],
        place: end,
    };
    Ok((record, rest))
}

// Whether a record begins here.
fn is_rtf(bytes: &[u8]) -> bool
    ensures { result ≡ is_rtf bytes.now }
{
    if !bytes.starts_with(SIGNATURE) {
        return false;
    }
    match bytes.get(SIGNATURE.len()) {
        Some(b) => !b.is_ascii_digit(),
        None => true,
    }
}
