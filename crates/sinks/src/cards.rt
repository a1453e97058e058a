// A sink that fills a pile of cards, one after the other.
ghost use Rattle.std.specs.Prelude.{◌≡◌, ℕ, ◌+◌, ◌*◌, ◌<◌, ◌≤◌, ◌↔◌, IsTrue, [], ◌∷◌, ◌++◌, length, take, drop, replicate, suc};
ghost use Rattle.sinks.specs.Cards.{front, dealt, room_in, blank, Filled, Filled-prop, HasPlace};

use crate::faults::SinkFault;
use crate::interface::{Full, Sink};

// How many bytes of data a card has.
pub const CARD_SIZE: usize = 127;

// A card is 128 bytes: how many bytes it holds, 0 to 127, and then its data. The format fixes these bytes, so the count
// stands before an array, and this is no vector.
#[repr(C)]
#[derive(Clone, Copy)]
pub struct Card {
    pub count: u8,
    pub data: [u8; CARD_SIZE],
}

impl Card {
    // A card that holds nothing.
    pub const BLANK: Card = Card {
        count: 0,
        data: [0; CARD_SIZE],
    };

    // The bytes that the card holds.
    fn bytes(&self) -> &[u8]
        requires { self.now.count ≤ 127 }
        ensures value { result.now ≡ front self.now }
        ensures len { length result.now ≡ self.now.count }
    {
        &self.data[..usize::from(self.count)]
    }

    // One more byte, where there is a place left.
    fn add(&mut self, byte: u8)
        requires { self.old.count < 127 }
        ensures count { self.new.count ≡ self.old.count + 1 }
        ensures bytes { front self.new ≡ front self.old ++ byte ∷ [] }
        ensures beyond { drop self.new.count self.new.«data» ≡ drop self.new.count self.old.«data» }
    {
        self.data[usize::from(self.count)] = byte;
        self.count += 1;
    }
}

// The least number of cards that hold that many bytes.
pub fn cards_for(bytes: usize) -> usize
    ensures enough { bytes ≤ 127 * result }
    ensures least { (k : ℕ) → bytes ≤ 127 * k → result ≤ k }
{
    bytes.div_ceil(CARD_SIZE)
}

// `at` is the card that is being filled: those before it are full, and those after it blank. What is held and what is
// left are together the whole pile. Nothing is allocated, so the cards are a slice that is lent, with an index beside it.
#[derive(Drop)]
pub struct CardSink<'a> {
    cards: &'a mut [Card],
    at: usize,
    pub ghost filled: { Filled at cards.now } by { Filled-prop at cards.now },
    ghost whole: { length (dealt at cards.now) + room_in (drop at cards.now) ≡ 127 * length cards.now },
}

#[tactic(auto, using(crate::proofs::Piles::pile))]
impl<'a> CardSink<'a> {
    ghost use Rattle.sinks.specs.Pile.{loaded, room, Unloaded};

    // Clears the cards, whatever they held.
    pub fn new(cards: &'a mut [Card]) -> Self
        ensures same { result.cards.ghost_name ≡ cards.entry.ghost_name }
        ensures cards { result.cards.now ≡ replicate (length cards.old) blank }
        ensures held { loaded result ≡ [] }
        ensures space { room result ≡ 127 * length cards.old }
    {
        cards.fill(Card::BLANK);
        CardSink { cards, at: 0 }
    }

    // Copies the held bytes into `out`, with zeros after them, and tells how many they are. Where they do not fit, it
    // leaves only zeros.
    pub fn unload(&self, out: &mut [u8]) -> Result<usize, SinkFault>
        ensures cases { Unloaded (loaded self.now) (length out.old) result out.new }
    {
        out.fill(0);
        let count = self.count();
        if out.len() < count {
            return Err(SinkFault::ShortBuffer);
        }
        // Not `out.chunks_mut(CARD_SIZE)`: of what is written through it, a proof knows how long it is and no more.
        for (place, card) in self.begun().iter().enumerate() {
            let start = CARD_SIZE * place;
            let bytes = card.bytes();
            out[start..start + bytes.len()].copy_from_slice(bytes);
        }
        Ok(count)
    }

    // The cards up to the one that is being filled.
    fn begun(&self) -> &[Card]
        ensures { result.now ≡ take (suc self.now.at) self.now.cards.now }
    {
        self.cards.get(..=self.at).unwrap_or(self.cards)
    }

    // Goes on to the next card, where another follows and the one that is being filled is full.
    fn advance(&mut self)
        ensures same { self.new.cards.ghost_name ≡ self.old.cards.ghost_name }
        ensures cards { self.new.cards.now ≡ self.old.cards.now }
        ensures held { loaded self.new ≡ loaded self.old }
        ensures space { room self.new ≡ room self.old }
        ensures place { 0 < room self.new → HasPlace self.new.at self.new.cards.now }
    {
        if !self.has_place() && self.at + 1 < self.cards.len() {
            self.at += 1;
        }
    }

    // Whether the card that is being filled has a place left. It is asked at each byte, so it works out no more.
    fn has_place(&self) -> bool
        ensures { IsTrue result ↔ HasPlace self.now.at self.now.cards.now }
    {
        self.at < self.cards.len() && usize::from(self.cards[self.at].count) < CARD_SIZE
    }
}

#[tactic(auto, using(crate::proofs::Piles::pile))]
impl<'a> Sink for CardSink<'a> {
    ghost use Rattle.sinks.specs.Pile.{loaded, room};
    ghost use Rattle.sinks.specs.Puts.{Put};

    ghost held = { loaded };

    ghost space = { room };

    ghost home = { λ s. s.cards.ghost_name };

    // A card takes a byte only when those before it are full.
    fn put(&mut self, byte: u8) -> Result<(), Full>
        ensures same { self.new.cards.ghost_name ≡ self.old.cards.ghost_name }
        ensures cases { Put (loaded self.old) (room self.old) byte result (loaded self.new) (room self.new) }
        ensures len { length self.new.cards.now ≡ length self.old.cards.now }
    {
        self.advance();
        if !self.has_place() {
            return Err(Full);
        }
        // The proof follows the loan of a card out of a slice in a variable, and not out of one in a field.
        let cards = &mut *self.cards;
        cards[self.at].add(byte);
        Ok(())
    }

    fn count(&self) -> usize {
        CARD_SIZE * self.cards.len() - self.space()
    }

    fn space(&self) -> usize {
        match &self.cards[self.at..] {
            [] => 0,
            [card, rest @ ..] => CARD_SIZE - usize::from(card.count) + CARD_SIZE * rest.len(),
        }
    }
}
