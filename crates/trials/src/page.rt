// A code page spread out.
ghost use Rattle.std.specs.Prelude.{◌≡◌, ℕ, ◌<◌, IfOk, IfSome, None, Some, slice_index_or};

use pages::CodePage;
use std::alloc::{AllocError, Global};

// The number of a page, and the character of each byte.
#[derive(Drop)]
pub struct Page {
    pub number: u16,
    pub characters: Vec<Option<char>>,
}

impl Page {
    pub fn spread<P: CodePage>(heap: Global, page: &P) -> Result<Page, AllocError>
        ensures number { IfOk result (λ spread. spread.number ≡ P.number page.now) }
        ensures characters { IfOk result (λ spread. (byte : ℕ) → byte < 256 → slice_index_or spread.characters.items byte None ≡ P.decoded page.now byte) }
    {
        Ok(Page {
            number: page.number(),
            characters: (0..=u8::MAX).map(|byte| page.decode(byte)).collect(heap)?,
        })
    }

    // The character of a byte.
    pub fn character(&self, byte: u8) -> Option<char>
        ensures { result ≡ slice_index_or self.now.characters.items byte None }
    {
        self.characters.get(usize::from(byte)).copied().flatten()
    }

    // The first byte that has the character.
    pub fn byte(&self, character: char) -> Option<u8>
        ensures { IfSome result (λ byte. slice_index_or self.now.characters.items byte None ≡ Some character) }
    {
        let place = self
            .characters
            .iter()
            .position(|entry| *entry == Some(character))?;
        u8::try_from(place).ok()
    }
}
