// The groups that are open, on a stack over entries that the caller lends.
ghost use Rattle.std.specs.Prelude.{◌≡◌, ℕ, ◌≤◌, [], length};
ghost use Rattle.groups.specs.Stack.{held, top_of, below, topped, Pushed};

use crate::faults::GroupFault;

// An entry of the stack, which names the place where its group opens.
pub trait Opening {
    ghost opens: { Self → ℕ };

    fn opens(&self) -> usize
        ensures { result ≡ opens self.now };
}

// A bare place names itself.
impl Opening for usize {
    ghost opens = { λ s. s };

    fn opens(&self) -> usize {
        *self
    }
}

// How many groups may be open at once, however many entries are lent.
pub const MAX_OPEN: usize = 64;

// The open groups: the first `depth` entries, or all of them where `depth` is beyond the last. The entries are lent and
// counted beside, since no heap is used; and a model of this would be all of its fields again, so contracts name these.
#[derive(Drop)]
pub struct Stack<'a, E> {
    entries: &'a mut [E],
    depth: usize,
}

impl<'a, E: Opening + Copy> Stack<'a, E> {
    // A stack over the given entries that holds nothing yet.
    pub fn new(entries: &'a mut [E]) -> Self
        ensures value { held result.depth result.entries.now ≡ [] }
        ensures entries { result.entries.now ≡ entries.old }
    {
        Stack { entries, depth: 0 }
    }

    // Puts an entry on top, unless the stack is full.
    pub fn push(&mut self, entry: E) -> Result<(), GroupFault>
        ensures same { self.new.entries.ghost_name ≡ self.old.entries.ghost_name }
        ensures room { length self.new.entries.now ≡ length self.old.entries.now }
        ensures cases { Pushed E.opens entry (length self.old.entries.now) (held self.old.depth self.old.entries.now) result (held self.new.depth self.new.entries.now) }
    {
        let room = MAX_OPEN.min(self.entries.len());
        if self.depth >= room {
            return Err(GroupFault::TooDeep(entry.opens()));
        }
        self.entries[self.depth] = entry;
        self.depth += 1;
        Ok(())
    }

    // Takes the top entry off, if there is one.
    pub fn pop(&mut self) -> Option<E>
        ensures same { self.new.entries.ghost_name ≡ self.old.entries.ghost_name }
        ensures room { length self.new.entries.now ≡ length self.old.entries.now }
        ensures value { result ≡ top_of (held self.old.depth self.old.entries.now) }
        ensures after { held self.new.depth self.new.entries.now ≡ below (held self.old.depth self.old.entries.now) }
    {
        let entry = self.top()?;
        self.depth = self.depth() - 1;
        Some(entry)
    }

    // The top entry, if there is one.
    pub fn top(&self) -> Option<E>
        ensures { result ≡ top_of (held self.now.depth self.now.entries.now) }
    {
        self.entries[..self.depth()].last().copied()
    }

    // Puts another entry in the place of the top one, if there is one.
    pub fn set_top(&mut self, entry: E)
        ensures same { self.new.entries.ghost_name ≡ self.old.entries.ghost_name }
        ensures room { length self.new.entries.now ≡ length self.old.entries.now }
        ensures after { held self.new.depth self.new.entries.now ≡ topped entry (held self.old.depth self.old.entries.now) }
    {
        let depth = self.depth();
        if depth > 0 {
            self.entries[depth - 1] = entry;
        }
    }

    // How many entries are held.
    pub fn depth(&self) -> usize
        ensures value { result ≡ length (held self.now.depth self.now.entries.now) }
        ensures bound { result ≤ length self.now.entries.now }
    {
        self.depth.min(self.entries.len())
    }
}
