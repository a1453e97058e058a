// Bytes that grow by what the dice throw.
ghost use Rattle.std.specs.Prelude.{◌≡◌, ◌-◌, ◌<◌, [], ◌++◌, length, replicate, Contains, OnOk, IfSome, vec_len};
ghost use Rattle.trials.specs.Drafts.{Grows};

use crate::dice::Dice;
use std::alloc::{AllocError, Global};
use std::convert::AsSlice;
use std::fmt::Display;

#[derive(Drop)]
pub struct Draft<'a> {
    pub dice: &'a mut Dice,
    pub bytes: Vec<u8>,
}

impl<'a> Draft<'a> {
    pub fn new(heap: Global, dice: &'a mut Dice) -> Draft<'a>
        ensures { result.bytes.items ≡ [] }
    {
        Draft {
            dice,
            bytes: Vec::new(heap),
        }
    }

    // Adds a text or a string of bytes.
    pub fn put<T: AsSlice<u8> + Drop>(&mut self, piece: T) -> Result<(), AllocError>
        ensures { Grows self.old.bytes.items (T.items piece) result self.new.bytes.items }
    {
        self.bytes.extend_from_slice(piece.as_slice())
    }

    // Adds one of several, or an empty one where there are none.
    pub fn pick<T: AsSlice<u8> + Copy + Default>(&mut self, pieces: &[T]) -> Result<(), AllocError>
        ensures { 0 < length pieces.now → OnOk result ((piece : T) × Contains pieces.now piece × (self.new.bytes.items ≡ self.old.bytes.items ++ T.items piece)) }
    {
        let piece = self.dice.one_of(pieces);
        self.put(piece)
    }

    // Adds what a value prints.
    pub fn print<T: Display + Drop>(&mut self, value: T) -> Result<(), AllocError>
        ensures { IfSome (T.output value) (λ text. Grows self.old.bytes.items text result self.new.bytes.items) }
    {
        let text = value.to_string(*self.bytes.allocator())?;
        self.put(&text)
    }

    // Adds a byte so many times.
    pub fn repeat(&mut self, byte: u8, times: usize) -> Result<(), AllocError>
        ensures { Grows self.old.bytes.items (replicate times byte) result self.new.bytes.items }
    {
        let length = self.bytes.len().saturating_add(times);
        self.bytes.resize(length, byte)
    }

    // Adds a byte until there are so many bytes, where there are fewer.
    pub fn fill(&mut self, byte: u8, length: usize) -> Result<(), AllocError>
        ensures { Grows self.old.bytes.items (replicate (length - vec_len self.old.bytes) byte) result self.new.bytes.items }
    {
        let missing = length.saturating_sub(self.bytes.len());
        self.repeat(byte, missing)
    }
}
