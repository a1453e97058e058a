// A text by its keys: what was typed at once.
ghost use Rattle.std.specs.Prelude.{◌≡◌};
ghost use Rattle.std.specs.Iterator.{YieldsFirstBy, item_count};
ghost use Rattle.std.specs.Str.{chars};
ghost use Rattle.writer.specs.Spelling.{keys};
ghost use Rattle.writer.specs.Shown.{shown_key, keys_left};

// A line break, which is CR LF, or any other character.
#[derive(Clone, Copy, PartialEq, Eq, Debug)]
pub enum Key {
    Break,
    Character(char),
}

// The keys of a text, one after the other.
#[derive(Drop)]
pub struct Keys<'a> {
    rest: &'a str,
}

impl<'a> Keys<'a> {
    pub fn new(text: &'a str) -> Self
        ensures { keys_left result ≡ keys (chars text.now) }
    {
        Keys { rest: text }
    }
}

impl<'a> Iterator for Keys<'a> {
    type Item = Key;

    ghost next_gives = { YieldsFirstBy shown_key keys_left };

    ghost remaining = { item_count keys_left };

    fn next(&mut self) -> Option<Key> {
        let mut characters = self.rest.chars();
        let character = characters.next()?;
        self.rest = characters.as_str();
        // A CR and the LF right after it come off together.
        if character == '\r' && characters.next() == Some('\n') {
            self.rest = characters.as_str();
            return Some(Key::Break);
        }
        Some(Key::Character(character))
    }
}
