// Calls to try writing on: most are good, and some are not.
use crate::fragments;
use records::Kind;
use std::alloc::{AllocError, Global};
use std::fmt;
use trials::{Dice, Draft};
use writer::CallKind;

// A writing call. It owns its piece, which is made up for it; `sittings::Call` borrows one, and is what a writer serves.
#[derive(Drop)]
pub enum Call {
    Open(Kind),
    Markup(Vec<u8>),
    Text(Vec<u8>),
    Dress(Vec<u8>),
    Finish,
}

impl Call {
    // The same call, its piece lent.
    pub fn lent(&self) -> sittings::Call<'_> {
        match self {
            Call::Open(kind) => sittings::Call::Open(*kind),
            Call::Markup(piece) => sittings::Call::Markup(piece),
            Call::Text(piece) => sittings::Call::Text(piece),
            Call::Dress(piece) => sittings::Call::Dress(piece),
            Call::Finish => sittings::Call::Finish,
        }
    }
}

impl fmt::Display for Call {
    fn fmt<W: fmt::Write>(&self, f: &mut fmt::Formatter<W>) -> fmt::Result {
        match self {
            Call::Open(kind) => write!(f, "open {kind}"),
            Call::Markup(piece) => write!(f, "markup {piece:?}"),
            Call::Text(piece) => write!(f, "text {piece:?}"),
            Call::Dress(piece) => write!(f, "dress {piece:?}"),
            Call::Finish => write!(f, "finish"),
        }
    }
}

// What a call is chosen by.
#[derive(Clone, Copy)]
pub struct Outlook {
    pub open: Option<Kind>,
    // How many bytes more fit the record and the space.
    pub fits: usize,
    // Whether pieces may be long.
    pub long: bool,
}

// Any call, though mostly one that the state takes.
pub fn next_call(heap: Global, dice: &mut Dice, outlook: Outlook) -> Result<Call, AllocError> {
    let mut piece = PieceDraft {
        draft: Draft::new(heap, dice),
        outlook,
    };
    match piece.choice() {
        CallKind::Open if piece.draft.dice.once_in(2) => Ok(Call::Open(Kind::Html)),
        CallKind::Open => Ok(Call::Open(Kind::Text)),
        CallKind::Markup => Ok(Call::Markup(piece.typed(13)?)),
        CallKind::Text => Ok(Call::Text(piece.typed(0)?)),
        CallKind::Dress => Ok(Call::Dress(piece.dressing()?)),
        CallKind::Finish => Ok(Call::Finish),
    }
}

// A piece that grows.
#[derive(Drop)]
struct PieceDraft<'a> {
    draft: Draft<'a>,
    outlook: Outlook,
}

impl PieceDraft<'_> {
    // Which call to make. The ranges are the odds.
    fn choice(&mut self) -> CallKind {
        let throw = self.draft.dice.below(100);
        match self.outlook.open {
            None if throw < 80 => CallKind::Open,
            Some(Kind::Html) if throw < 35 => CallKind::Text,
            Some(Kind::Html) if throw < 60 => CallKind::Markup,
            Some(Kind::Html) if throw < 90 => CallKind::Dress,
            Some(Kind::Text) if throw < 75 => CallKind::Text,
            _ => match self.draft.dice.below(5) {
                0 => CallKind::Open,
                1 => CallKind::Markup,
                2 => CallKind::Text,
                3 => CallKind::Dress,
                _ => CallKind::Finish,
            },
        }
    }

    // Whether a piece is made to fit just so.
    fn is_measured(&mut self) -> bool {
        let often = if self.outlook.long { 6 } else { 16 };
        self.outlook.fits < 40_000 && self.draft.dice.once_in(often)
    }

    // How many parts a piece has at most: few, or in a long sitting sometimes more than a record may have.
    fn parts(&mut self, few: usize) -> usize {
        let throw = if self.outlook.long {
            self.draft.dice.below(12)
        } else {
            0
        };
        match throw {
            0..=6 => few,
            7..=10 => 900,
            _ => 8_000,
        }
    }

    // Letters, so many that with the frame of the piece they just fit, or one or two more or less.
    fn letters(&mut self, frame: usize) -> Result<(), AllocError> {
        let more = self.draft.dice.below(4);
        let count = self
            .outlook
            .fits
            .saturating_sub(frame)
            .saturating_add(more)
            .saturating_sub(1);
        self.draft.repeat(b'x', count)
    }

    // A piece of markup or of text, which has a frame of some bytes around it.
    fn typed(mut self, frame: usize) -> Result<Vec<u8>, AllocError> {
        let measured = self.is_measured();
        let broken = self.draft.dice.once_in(12);
        let most = self.parts(9);
        if measured {
            self.letters(frame)?;
            return Ok(self.draft.bytes);
        }
        self.fragments(most)?;
        if broken {
            self.draft.pick(fragments::BROKEN)?;
            self.fragments(3)?;
        }
        if self.draft.dice.once_in(40) {
            let _ = self.draft.bytes.pop();
        }
        Ok(self.draft.bytes)
    }

    // Decoration, which has its frame too.
    fn dressing(mut self) -> Result<Vec<u8>, AllocError> {
        let measured = self.is_measured();
        let flaws = match self.draft.dice.below(8) {
            0..=3 => 0,
            4..=6 => 1,
            _ => 2,
        };
        let most = self.parts(6);
        if measured {
            self.letters(19)?;
            return Ok(self.draft.bytes);
        }
        self.dressings(most)?;
        for _ in 0..flaws {
            self.flaw()?;
            self.dressings(4)?;
        }
        Ok(self.draft.bytes)
    }

    fn fragments(&mut self, most: usize) -> Result<(), AllocError> {
        for _ in 0..self.draft.dice.below(most) {
            self.fragment()?;
        }
        Ok(())
    }

    // A part of a piece, in one of many alphabets.
    fn fragment(&mut self) -> Result<(), AllocError> {
        let alphabet: &[&str] = match self.draft.dice.below(26) {
            0..=7 => fragments::ASCII,
            8..=9 => fragments::LATIN,
            10..=11 => fragments::CYRILLIC,
            12..=13 => fragments::WIDE,
            14..=15 => fragments::BEYOND,
            16..=17 => fragments::BREAKS,
            18 => fragments::CONTROLS,
            19..=20 => fragments::SPECIAL,
            21..=22 => fragments::MARKUP,
            _ => {
                let character = self.draft.dice.character();
                return self.draft.print(character);
            }
        };
        self.draft.pick(alphabet)
    }

    fn dressings(&mut self, most: usize) -> Result<(), AllocError> {
        for _ in 0..self.draft.dice.below(most) {
            self.draft.pick(fragments::DRESSING)?;
        }
        Ok(())
    }

    // A part of decoration that mostly should not be there. The ranges are the odds: a table of closures would show them no
    // plainer, and each would have to be lent `self`.
    fn flaw(&mut self) -> Result<(), AllocError> {
        match self.draft.dice.below(14) {
            0..=3 => self.marker(),
            4..=6 => self.draft.pick(fragments::FAULTY),
            7 => self.draft.put("{"),
            8 => self.draft.put("}"),
            9 => self.draft.put("\\"),
            10 => self.draft.pick(fragments::UNPRINTABLE),
            11 => {
                let byte = self.draft.dice.byte();
                self.draft.put([byte])
            }
            _ => self.nested(),
        }
    }

    fn marker(&mut self) -> Result<(), AllocError> {
        self.draft.pick(fragments::MARKERS)?;
        self.draft.pick(fragments::NUMBERS)
    }

    // A group or more, one within the other, as many as may be or one more.
    fn nested(&mut self) -> Result<(), AllocError> {
        let depth = match self.draft.dice.below(4) {
            0 => 64,
            1 => 63,
            2 => 62,
            _ => self.draft.dice.below(20),
        };
        self.draft.repeat(b'{', depth)?;
        self.draft.repeat(b'}', depth)
    }
}
