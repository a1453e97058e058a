// The walk through a record, from token to token, that gives the effects one by one.
ghost use Rattle.std.specs.Prelude.{◌≡◌, ℕ, ◌<◌, ◌≤◌, ◌&&◌, [], ◌∷◌, ◌++◌, length, drop, IfSome, Some as Found1};
ghost use Rattle.std.specs.Option.{option_map};
ghost use Rattle.std.specs.List.{AllByRecursion};
ghost use Rattle.tokens.specs.Shown.{shown as shown_token};
ghost use Rattle.tokens.specs.Tokens.{items, next as next_item, good};
ghost use Rattle.reader.specs.Rules.{effects, outermost, added, opened, other as other_of, tag_next, is_star};
ghost use Rattle.reader.specs.Shown.{shown_effect};
ghost use Rattle.reader.specs.Walk.{to_come, as_bytes, in_text, text_run, most, states as states_of, from, rest, Gives};
ghost use Rattle.reader.specs.Tokens.{Sound};

use crate::rules::{Effect, is_htmltag, is_star, takes_text, turn_of};
use crate::state::ReadingState;
use groups::{MAX_OPEN, Stack};
use records::Kind;
use tokens::{Found, Token, next_token, text_end};

// An effect, with the place of its token.
#[derive(Clone, Copy)]
pub struct Placed {
    pub effect: Effect,
    pub place: usize,
}

// A walk through a record whose first group is known to be sound.
#[derive(Drop)]
pub struct Effects<'r, 's> {
    bytes: &'r [u8],
    kind: Kind,
    at: usize,
    states: Stack<'s, ReadingState>,
    // How many tokens are still to be skipped.
    skip: u32,
}

impl<'r, 's> Effects<'r, 's> {
    // A walk that starts behind the brace of the first group.
    pub fn new(bytes: &'r [u8], kind: Kind, room: &'s mut [ReadingState; MAX_OPEN]) -> Self
        ensures { to_come result ≡ effects 64 kind (outermost ∷ []) 0 (items 0 1 (drop 1 bytes.now)) }
    {
        let mut states = Stack::new(room);
        let _ = states.push(ReadingState::outermost());
        Effects {
            bytes,
            kind,
            at: 1,
            states,
            skip: 0,
        }
    }

    // The next effect, or none at the record's end. No iterator: between two effects its caller also takes runs of text.
    pub fn next_effect(&mut self) -> Option<Placed>
        ensures { Gives (to_come self.old) result (to_come self.new) }
    {
        while let Some(found) = token_at(self.bytes, self.at) {
            if let Some(effect) = self.step(found) {
                return Some(Placed {
                    effect,
                    place: found.place,
                });
            }
        }
        None
    }

    // One token: its effect, if it has one. That the bytes stay is said here and twice below: it relates before and after, so no
    // type can say it.
    fn step(&mut self, found: Found<'_>) -> Option<Effect>
        requires next { Found1 (good (shown_token found.token) found.place found.end) ≡ next_item self.old.at (drop self.old.at self.old.bytes.now) }
        requires after { self.old.at ≤ found.end }
        requires within { found.end ≤ length self.old.bytes.now }
        ensures value { to_come self.old ≡ added (option_map shown_effect result) found.entry.place (to_come self.new) }
        ensures on { found.entry.end ≤ self.new.at }
        ensures same { self.new.bytes.now ≡ self.old.bytes.now }
    {
        self.at = found.end;
        match found.token {
            Token::Open => {
                self.open(found.place);
                None
            }
            Token::Close => {
                let _ = self.states.pop();
                self.skip = 0;
                None
            }
            token => self.other(token),
        }
    }

    // A group opens inside the one that is open. Where that cannot be, the walk is at its end.
    fn open(&mut self, place: usize)
        requires { self.old.at ≤ length self.old.bytes.now }
        ensures value { to_come self.new ≡ opened (most self.old) place (states_of self.old) (from self.old) }
        ensures on { self.old.at ≤ self.new.at }
        ensures same { self.new.bytes.now ≡ self.old.bytes.now }
    {
        self.skip = 0;
        let Some(state) = self.states.top() else {
            return;
        };
        if self.states.push(state.inside(place)).is_err() {
            self.at = self.bytes.len();
        }
    }

    // A token that is no brace.
    fn other(&mut self, token: Token<'_>) -> Option<Effect>
        ensures value { (p : ℕ) → added (option_map shown_effect result) p (to_come self.new) ≡ other_of self.old.kind (shown_token token.entry) p (tag_next (rest self.old)) (states_of self.old) self.old.skip (from self.old) }
        ensures on { self.new.at ≡ self.old.at }
        ensures same { self.new.bytes.now ≡ self.old.bytes.now }
    {
        let Some(state) = self.states.top() else {
            return None;
        };
        if self.skip > 0 {
            self.skip -= 1;
            return None;
        }
        let turn = turn_of(self.kind, state, token, self.tag_next(token));
        self.skip = turn.skip;
        if let Some(changed) = turn.change {
            self.states.set_top(changed);
        }
        turn.effect
    }

    // The plain text that comes next, where text has effect: each byte of it adds itself, one after the other. A run of it
    // is taken in one step, since most of a record is text.
    pub fn text(&mut self) -> &'r [u8]
        ensures run { result.now ≡ text_run self.old }
        ensures value { to_come self.old ≡ as_bytes self.old.at result.now ++ to_come self.new }
        ensures ascii { AllByRecursion (λ b. b < 128) result.now }
    {
        let from = self.at;
        if from >= self.bytes.len() || !self.is_in_text() {
            return b"";
        }
        let end = text_end(self.bytes, from);
        self.at = end;
        &self.bytes[from..end]
    }

    // Whether text has effect here.
    fn is_in_text(&self) -> bool
        ensures { result ≡ in_text self.now.kind (states_of self.now) self.now.skip }
    {
        match self.states.top() {
            Some(state) => self.skip == 0 && takes_text(self.kind, state),
            None => false,
        }
    }

    // Whether the token is `\*` and the next one `\htmltag`. To any other token the next one does not matter.
    fn tag_next(&self, token: Token<'_>) -> bool
        ensures { result ≡ (is_star (shown_token token.entry) && tag_next (rest self.now)) }
    {
        if !is_star(token) {
            return false;
        }
        match token_at(self.bytes, self.at) {
            Some(found) => is_htmltag(found.token),
            None => false,
        }
    }
}

// The next token of a record that is known to be sound.
fn token_at<'a>(bytes: &'a [u8], at: usize) -> Option<Found<'a>>
    ensures value { Sound result (next_item at (drop at bytes.now)) }
    ensures bound { IfSome result (λ f. (at ≤ f.place) × (f.place < f.end) × (f.end ≤ length bytes.now)) }
{
    next_token(bytes, at).ok().flatten()
}
