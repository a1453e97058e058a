// A sink that fills a byte buffer from its start.
ghost use Rattle.std.specs.Prelude.{◌≡◌, ◌≤◌, [], length, drop};

use crate::interface::{Full, Sink};

// The first `len` bytes are held. Those beyond are as the lender left them. Nothing is allocated, so these are a slice
// that is lent, with a length beside it, and no vector.
#[derive(Drop)]
pub struct BufferSink<'a> {
    bytes: &'a mut [u8],
    len: usize,
    ghost within: { len ≤ length bytes.now },
}

impl<'a> BufferSink<'a> {
    ghost use Rattle.sinks.specs.Buffer.{written, spare};

    // Holds nothing yet, and leaves the bytes as they are until they are put over.
    pub fn new(bytes: &'a mut [u8]) -> Self
        ensures same { result.bytes.ghost_name ≡ bytes.entry.ghost_name }
        ensures bytes { result.bytes.now ≡ bytes.old }
        ensures held { written result ≡ [] }
        ensures space { spare result ≡ length bytes.old }
    {
        BufferSink { bytes, len: 0 }
    }

    // The bytes that were put.
    pub fn into_written(self) -> &'a [u8]
        ensures { result.now ≡ written self.entry }
    {
        let BufferSink { bytes, len } = self;
        &bytes[..len]
    }
}

impl<'a> Sink for BufferSink<'a> {
    ghost use Rattle.sinks.specs.Buffer.{written, spare};
    ghost use Rattle.sinks.specs.Puts.{Put};

    ghost held = { written };

    ghost space = { spare };

    ghost home = { λ s. s.bytes.ghost_name };

    // What stays is said of before and after, so no type can say it.
    fn put(&mut self, byte: u8) -> Result<(), Full>
        ensures same { self.new.bytes.ghost_name ≡ self.old.bytes.ghost_name }
        ensures cases { Put (written self.old) (spare self.old) byte result (written self.new) (spare self.new) }
        ensures len { length self.new.bytes.now ≡ length self.old.bytes.now }
        ensures beyond { drop self.new.len self.new.bytes.now ≡ drop self.new.len self.old.bytes.now }
    {
        if self.len == self.bytes.len() {
            return Err(Full);
        }
        self.bytes[self.len] = byte;
        self.len += 1;
        Ok(())
    }

    fn count(&self) -> usize {
        self.len
    }

    fn space(&self) -> usize {
        self.bytes.len() - self.len
    }
}
