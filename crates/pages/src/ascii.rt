// The code page of plain ASCII.
ghost use Rattle.pages.specs.Ascii.{below128};
ghost use Rattle.std.proofs.Common.{rules};

use crate::page::CodePage;

// Code page 20127: the bytes 0 to 127 alone have a character.
#[derive(Clone, Copy)]
pub struct Ascii20127;

impl CodePage for Ascii20127 {
    ghost number = { λ _. 20127 };

    ghost decoded = { λ _ b. below128 b };

    ghost encoded = { λ _ c. below128 c };

    ghost numbered = { Prim.search rules };

    ghost ascii = { Prim.search rules };

    ghost there = { Prim.search rules };

    ghost back = { Prim.search rules };

    ghost bytes = { Prim.search rules };

    ghost scalars = { Prim.search rules };

    fn number(&self) -> u16 {
        20127
    }

    fn decode(&self, byte: u8) -> Option<char> {
        byte.is_ascii().then(|| char::from(byte))
    }

    fn encode(&self, character: char) -> Option<u8> {
        character.is_ascii().then(|| character as u8)
    }
}
