// The list of mappings, as it is asked.

use crate::mapping::Mapping;
use std::alloc::{AllocError, Global};
use std::collections::BTreeMap;

// The mappings by the byte and by the character of a page. Where the list has two, the first counts.
#[derive(Drop)]
pub struct Listed {
    characters: BTreeMap<(u16, u8), Option<char>>,
    bytes: BTreeMap<(u16, char), u8>,
}

impl Listed {
    pub fn new(heap: Global) -> Self {
        Listed {
            characters: BTreeMap::new(heap),
            bytes: BTreeMap::new(heap),
        }
    }

    pub fn add(&mut self, mapping: Mapping) -> Result<(), AllocError> {
        let Mapping {
            page,
            byte,
            character,
        } = mapping;
        self.characters.entry((page, byte))?.or_insert(character);
        if let Some(character) = character {
            self.bytes.entry((page, character))?.or_insert(byte);
        }
        Ok(())
    }

    // The character that the list gives a byte of a page: None where the list does not have the byte, and `Some(None)` where it says that there is none.
    pub fn character(&self, page: u16, byte: u8) -> Option<Option<char>> {
        self.characters.get(&(page, byte)).copied()
    }

    // The byte that the list gives a character of a page.
    pub fn byte(&self, page: u16, character: char) -> Option<u8> {
        self.bytes.get(&(page, character)).copied()
    }
}
