// Calls over any sink.
ghost use Rattle.std.specs.Prelude.{◌≡◌};
ghost use Rattle.sinks.specs.Puts.{PutAll};

use crate::interface::{Full, Sink};

// Puts all of the bytes, or none where they do not all fit.
pub fn put_all<S: Sink>(sink: &mut S, bytes: &[u8]) -> Result<(), Full>
    ensures same { S.Sink.home sink.new ≡ S.Sink.home sink.old }
    ensures cases { PutAll (S.Sink.held sink.old) (S.Sink.space sink.old) bytes.now result (S.Sink.held sink.new) (S.Sink.space sink.new) }
{
    if sink.space() < bytes.len() {
        return Err(Full);
    }
    for byte in bytes {
        sink.put(*byte)?;
    }
    Ok(())
}
