// The guard over the result bytes of a reading.
ghost use Rattle.std.specs.Prelude.{◌≡◌, ℕ, true, false, List, [], ◌++◌, length};
ghost use Rattle.reader.specs.Guarded.{left_by, Holds, Keeps};

// Result bytes, which are wiped at the guard's end unless the reading was accepted. They are lent, and their content's length
// stands beside them, since no heap is used.
pub struct Guard<'a> {
    bytes: &'a mut [u8],
    // How long the content is that they hold: none where it is longer than they are.
    length: Option<usize>,
    // A flag, since only `drop` may take apart what has one.
    accepted: bool,
}

impl Drop for Guard<'_> {
    fn drop(self)
        ensures { self.exit.0.now ≡ left_by self.entry.accepted self.entry.bytes.now }
    {
        if !self.accepted {
            self.bytes.fill(0);
        }
        let Guard {
            bytes: _,
            length: _,
            accepted: _,
        } = self;
    }
}

impl<'a> Guard<'a> {
    // Clears the bytes, and guards them.
    pub fn new(bytes: &'a mut [u8]) -> Self
        ensures value { Holds [] result }
        ensures same { result.bytes.ghost_name ≡ bytes.entry.ghost_name }
        ensures len { length result.bytes.now ≡ length bytes.old }
        ensures accepted { result.accepted ≡ false }
    {
        bytes.fill(0);
        Guard {
            bytes,
            length: Some(0),
            accepted: false,
        }
    }

    // How long the content is, or none where it is longer than the bytes.
    pub fn length(&self) -> Option<usize>
        ensures { result ≡ self.now.length }
    {
        let Guard { length, .. } = self;
        *length
    }

    // The bytes stay.
    pub fn accept(&mut self)
        ensures accepted { self.new.accepted ≡ true }
        ensures same { self.new.bytes.ghost_name ≡ self.old.bytes.ghost_name }
        ensures after { self.new.bytes.now ≡ self.old.bytes.now }
    {
        self.accepted = true;
    }

    // Adds a piece to the content. Where it does not fit, the content is too long from here on.
    pub fn push(&mut self, piece: &[u8])
        ensures value { (content : List ℕ) → Holds content self.old → Holds (content ++ piece.now) self.new }
        ensures keeps { Keeps self.old self.new }
    {
        let Some(at) = self.length else {
            return;
        };
        // In two steps, since the end is a sum that fits only where the piece does.
        let room = self.bytes.len();
        if at > room || piece.len() > room - at {
            self.length = None;
            return;
        }
        let end = at + piece.len();
        self.bytes[at..end].copy_from_slice(piece);
        self.length = Some(end);
    }
}
