// The checks of given bytes before a record is read.
ghost use Rattle.std.specs.Prelude.{◌≡◌, ◌<◌, ◌≤◌, not, length, drop, position, IfSome};
ghost use Rattle.reader.specs.Reading.{may_trail, trailing as trailing_of, sound_record, shown_bytes};

use crate::faults::ReadFault;
use records::take_apart;

// The most bytes that reading takes.
pub const MAX_BYTES: usize = 32_768;

fn may_trail(byte: u8) -> bool
    ensures { result ≡ may_trail byte }
{
    matches!(byte, b'\r' | b'\n' | 0)
}

// The first byte that may not stand after a record.
fn first_trailing(bytes: &[u8]) -> Option<usize>
    ensures value { result ≡ position (λ b. not (may_trail b)) bytes.now }
    ensures bound { IfSome result (λ n. n < length bytes.now) }
{
    bytes.iter().position(|byte| !may_trail(*byte))
}

// After a record only CR, LF and NUL may stand.
fn check_trailing(bytes: &[u8], from: usize) -> Result<(), ReadFault>
    requires { from ≤ length bytes.now }
    ensures { result ≡ trailing_of from (drop from bytes.now) }
{
    match first_trailing(&bytes[from..]) {
        Some(more) => Err(ReadFault::Trailing(from + more)),
        None => Ok(()),
    }
}

// The record that the bytes are, with nothing else after it.
pub fn sound_record<'a>(bytes: &'a [u8]) -> Result<&'a [u8], ReadFault>
    ensures { shown_bytes result ≡ sound_record bytes.now }
{
    if bytes.len() > MAX_BYTES {
        return Err(ReadFault::TooLong);
    }
    let (record, rest) = take_apart(bytes)?;
    check_trailing(bytes, rest.place)?;
    Ok(record.bytes)
}
