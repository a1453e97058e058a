// Records to try reading on: most are sound, and some are not.
ghost use Rattle.std.specs.Prelude.{◌<◌, length};

use crate::fragments;
use std::alloc::{AllocError, Global};
use trials::{Dice, Draft, Page};

// A record that grows.
#[derive(Drop)]
struct RecordDraft<'a, 'b> {
    draft: Draft<'a>,
    page: &'b Page,
    // How many bytes it is to have, where it is a long one.
    length: Option<usize>,
    // How many groups are open.
    depth: usize,
    // One in so many fragments may be harmful, where any may.
    harm: Option<usize>,
}

// A record for a page. Where a length is given it is that long, and else short.
pub fn record(
    heap: Global,
    dice: &mut Dice,
    page: &Page,
    length: Option<usize>,
) -> Result<Vec<u8>, AllocError> {
    let harm = match dice.below(if length.is_some() { 6 } else { 8 }) {
        0..=4 => None,
        5 => Some(40),
        6 => Some(10),
        _ => Some(3),
    };
    let mut record = RecordDraft {
        draft: Draft::new(heap, dice),
        page,
        length,
        depth: 1,
        harm,
    };
    record.head()?;
    match length {
        Some(length) => record.long_body(length)?,
        None => record.body()?,
    }
    record.end()?;
    if length.is_none() && record.draft.dice.once_in(12) {
        record.damage()?;
    }
    Ok(record.draft.bytes)
}

impl RecordDraft<'_, '_> {
    // Whether to do harm here.
    fn harmful(&mut self) -> bool {
        self.harm
            .is_some_and(|times| self.draft.dice.once_in(times))
    }

    fn head(&mut self) -> Result<(), AllocError> {
        if self.draft.dice.once_in(60) {
            self.draft.pick(fragments::STARTS)?;
        } else {
            self.draft.put("{\\rtf1")?;
        }
        if self.draft.dice.once_in(10) {
            self.odd_marks()
        } else {
            self.marks()
        }
    }

    // The two declarations in either order.
    fn marks(&mut self) -> Result<(), AllocError> {
        let page_first = self.draft.dice.once_in(2);
        if page_first {
            self.declared_page()?;
        }
        if self.draft.dice.once_in(2) {
            self.draft.put("\\fromhtml1 ")?;
        } else {
            self.draft.put("\\fromtext")?;
        }
        if !page_first {
            self.declared_page()?;
        }
        if self.draft.dice.once_in(2) {
            self.draft.put("\\deff0 ")?;
        }
        Ok(())
    }

    fn declared_page(&mut self) -> Result<(), AllocError> {
        self.draft.put("\\ansicpg")?;
        if self.draft.dice.once_in(25) {
            self.draft.pick(fragments::PAGES)
        } else {
            self.draft.print(self.page.number)
        }
    }

    // Declarations with more around them, so that the tenth token may come first.
    fn odd_marks(&mut self) -> Result<(), AllocError> {
        self.fillers(10)?;
        if self.draft.dice.once_in(2) {
            self.declared_page()?;
        }
        if self.draft.dice.once_in(4) {
            self.draft.pick(fragments::ENDS_OF_SEARCH)?;
        }
        if self.draft.dice.once_in(2) {
            self.fillers(5)?;
        }
        self.draft.pick(fragments::MARKS)?;
        if self.draft.dice.once_in(2) {
            self.fillers(4)?;
        }
        self.declared_page()
    }

    fn fillers(&mut self, limit: usize) -> Result<(), AllocError> {
        for _ in 0..self.draft.dice.below(limit) {
            let filler = self.draft.dice.one_of(fragments::FILLERS);
            if filler.starts_with('{') {
                self.depth = self.depth.saturating_add(1);
            }
            self.draft.put(filler)?;
        }
        Ok(())
    }

    fn body(&mut self) -> Result<(), AllocError> {
        let most = match self.draft.dice.below(10) {
            0 => 2,
            1..=7 => 16,
            _ => 60,
        };
        for _ in 0..self.draft.dice.below(most) {
            self.fragment()?;
        }
        Ok(())
    }

    // A body that leaves a little to do to the given length. A fragment may be empty, so their number is limited too.
    fn long_body(&mut self, length: usize) -> Result<(), AllocError> {
        for _ in 0..length {
            if self.draft.bytes.len().saturating_add(600) > length {
                break;
            }
            self.fragment()?;
        }
        Ok(())
    }

    // The ranges are the odds. A table of closures would show them no plainer, and each would have to be lent `self`.
    fn fragment(&mut self) -> Result<(), AllocError> {
        if self.harmful() {
            return self.harmful_fragment();
        }
        match self.draft.dice.below(40) {
            0..=5 => self.draft.pick(fragments::PLAIN),
            6..=9 => self.word(),
            10..=13 => self.hex(),
            14..=16 => self.raw(),
            17..=19 => self.symbol(),
            20..=22 => self.unit(),
            23..=24 => self.pair(),
            25 => self.fallback_number(),
            26 => self.binary(),
            27..=28 => self.open(),
            29..=33 => self.close(),
            34..=35 => self.draft.pick(fragments::GROUPS),
            36..=37 => self.draft.pick(fragments::SUPPRESSED),
            38 => self.silent(),
            _ => self.draft.pick(fragments::LONGEST),
        }
    }

    // The ranges are the odds here too.
    fn harmful_fragment(&mut self) -> Result<(), AllocError> {
        match self.draft.dice.below(24) {
            0..=3 => self.draft.pick(fragments::FAULTY),
            4..=5 => self.bad_word(),
            6..=9 => self.beyond(),
            10..=12 => self.half(fragments::HIGH_HALVES),
            13..=14 => self.half(fragments::LOW_HALVES),
            15..=16 => self.parted(),
            17..=19 => self.no_character(),
            20 => self.deep(),
            21 => self.open(),
            22 => self.draft.put("}"),
            _ => self.draft.put("\\"),
        }
    }

    // Opens a group for what may silence the one it stands in, so that not all of a record is silent.
    fn shelter(&mut self) -> Result<(), AllocError> {
        if self.depth == 1 && (self.length.is_some() || self.draft.dice.once_in(2)) {
            self.open()?;
        }
        Ok(())
    }

    fn symbol(&mut self) -> Result<(), AllocError> {
        let symbol = self.draft.dice.one_of(fragments::SYMBOLS);
        if symbol == "\\*" {
            self.shelter()?;
        }
        self.draft.put(symbol)
    }

    fn word(&mut self) -> Result<(), AllocError> {
        self.shelter()?;
        let word = self.draft.dice.one_of(fragments::WORDS);
        self.draft.put("\\")?;
        self.draft.put(word)?;
        match word {
            "bin" => self.draft.put("0")?,
            "u" => self.draft.pick(fragments::UNITS)?,
            _ => self.draft.pick(fragments::NUMBERS)?,
        }
        self.draft.pick(fragments::DELIMITERS)
    }

    fn bad_word(&mut self) -> Result<(), AllocError> {
        self.draft.put("\\")?;
        self.draft.pick(fragments::WORDS)?;
        self.draft.pick(fragments::BAD_NUMBERS)?;
        self.draft.pick(fragments::DELIMITERS)
    }

    // A byte that has a character mostly.
    fn good_byte(&mut self) -> u8 {
        match self.draft.dice.byte() {
            0x81 | 0x8D | 0x8F | 0x90 | 0x98 | 0x9D => b'!',
            byte if self.page.character(byte).is_none() => b'?',
            byte => byte,
        }
    }

    fn hex(&mut self) -> Result<(), AllocError> {
        let byte = self.good_byte();
        self.hex_of(byte)
    }

    fn hex_of(&mut self, byte: u8) -> Result<(), AllocError> {
        self.draft.put("\\'")?;
        self.hex_digit(byte / 16)?;
        self.hex_digit(byte % 16)
    }

    // A letter may be small or capital.
    fn hex_digit(&mut self, digit: u8) -> Result<(), AllocError> {
        if digit < 10 || !self.draft.dice.once_in(2) {
            self.draft.print(format_args!("{digit:x}"))
        } else {
            self.draft.print(format_args!("{digit:X}"))
        }
    }

    fn raw(&mut self) -> Result<(), AllocError> {
        let byte = match self.good_byte() {
            b'{' | b'}' | b'\\' => b'/',
            byte => byte,
        };
        self.draft.put([byte])
    }

    fn no_character(&mut self) -> Result<(), AllocError> {
        let byte = match self.draft.dice.below(4) {
            0 => 0x98,
            1 => 0x81,
            2 => 0x9D,
            _ => self.draft.dice.byte(),
        };
        if self.draft.dice.once_in(2) {
            self.hex_of(byte)
        } else {
            self.draft.put([byte])
        }
    }

    fn unit(&mut self) -> Result<(), AllocError> {
        self.draft.put("\\u")?;
        self.draft.pick(fragments::UNITS)?;
        if self.draft.dice.once_in(4) {
            self.draft.put(" ")?;
        }
        self.draft.pick(fragments::FALLBACKS)
    }

    fn half(&mut self, halves: &[&str]) -> Result<(), AllocError>
        requires { 0 < length halves.now }
    {
        self.draft.put("\\u")?;
        self.draft.pick(halves)?;
        self.draft.put("?")
    }

    fn pair(&mut self) -> Result<(), AllocError> {
        self.draft.put("\\uc1")?;
        self.half(fragments::HIGH_HALVES)?;
        self.draft.pick(fragments::BETWEEN)?;
        self.half(fragments::LOW_HALVES)
    }

    fn parted(&mut self) -> Result<(), AllocError> {
        self.half(fragments::HIGH_HALVES)?;
        self.draft.pick(fragments::PARTING)?;
        self.half(fragments::LOW_HALVES)
    }

    fn beyond(&mut self) -> Result<(), AllocError> {
        if self.draft.dice.once_in(6) {
            self.half(fragments::HIGH_HALVES)?;
        }
        self.half(fragments::BEYOND)
    }

    fn fallback_number(&mut self) -> Result<(), AllocError> {
        self.draft.put("\\uc")?;
        self.draft.pick(&["0", "1", "2", "3", "-1", "", "1", "0"])?;
        self.draft.put(" ")
    }

    // `\bin` with up to seven bytes of any kind.
    fn binary(&mut self) -> Result<(), AllocError> {
        let count = self.draft.dice.below(8);
        let zeros = self.draft.dice.one_of(&["", "0", "00"]);
        self.draft.print(format_args!("\\bin{zeros}{count}"))?;
        if self.draft.dice.once_in(2) {
            self.draft.put(" ")?;
        } else if count > 0 {
            self.draft.put("}")?;
        }
        for _ in 1..count {
            let byte = self.draft.dice.byte();
            self.draft.put([byte])?;
        }
        self.draft.put("x")
    }

    fn open(&mut self) -> Result<(), AllocError> {
        if self.depth >= 63 && self.harm.is_none() {
            return Ok(());
        }
        self.depth = self.depth.saturating_add(1);
        self.draft.put("{")
    }

    fn close(&mut self) -> Result<(), AllocError> {
        if self.depth <= 1 {
            return Ok(());
        }
        self.depth -= 1;
        self.draft.put("}")
    }

    // Groups as deep as there may be, or deeper.
    fn deep(&mut self) -> Result<(), AllocError> {
        let goal = 60 + self.draft.dice.below(7);
        let more = goal.saturating_sub(self.depth);
        self.depth = self.depth.saturating_add(more);
        self.draft.repeat(b'{', more)
    }

    fn silent(&mut self) -> Result<(), AllocError> {
        self.draft.put("{\\")?;
        self.draft.pick(fragments::SILENT)?;
        self.draft.pick(fragments::NUMBERS)?;
        self.draft.pick(fragments::DELIMITERS)?;
        self.draft.pick(fragments::GROUPS)?;
        self.draft.put("gone}")
    }

    // Closes what is open, mostly. Where a length is given, text and then bytes after the record fill it up.
    fn end(&mut self) -> Result<(), AllocError> {
        self.draft.put(" ")?;
        if let Some(length) = self.length {
            let held = self.depth.saturating_add(self.draft.dice.below(3));
            self.draft.fill(b'x', length.saturating_sub(held))?;
        }
        if self.harmful() && self.draft.dice.once_in(2) {
            return self.draft.pick(fragments::CUT_ENDS);
        }
        let missing = usize::from(self.harmful());
        self.draft.repeat(b'}', self.depth.saturating_sub(missing))?;
        match self.length {
            Some(length) => self.draft.fill(0, length),
            None if self.draft.dice.once_in(30) => self.draft.pick(fragments::BAD_TRAILS),
            None => self.draft.pick(fragments::TRAILS),
        }
    }

    // One byte is another, or is gone, or one more is there; or the end is gone.
    fn damage(&mut self) -> Result<(), AllocError> {
        let length = self.draft.bytes.len();
        let place = self.draft.dice.below(length);
        let byte = if self.draft.dice.once_in(2) {
            self.draft.dice.byte()
        } else {
            self.draft.dice.one_of(b"{}\\'-0 9uab")
        };
        // The ranges are the odds.
        let way = self.draft.dice.below(4);
        if place >= length {
            return Ok(());
        }
        match way {
            0 => self.draft.bytes.truncate(place),
            1 => self.draft.bytes[place] = byte,
            2 => {
                let _ = self.draft.bytes.remove(place);
            }
            _ => self.draft.bytes.insert(place, byte)?,
        }
        Ok(())
    }
}
