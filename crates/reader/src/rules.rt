// The rules from tokens to effects: what a token does to its group, and what it adds.
ghost use Rattle.std.specs.Prelude.{◌≡◌, if◌then◌else◌};
ghost use Rattle.reader.specs.Rules.{unit_of, still as still_of, adds as adds_to, fallback_turn, unicode_turn, content_turn, symbol_text, symbol_turn, plain_turn, means as means_of, is_star, turns_off, make_tag, silence, turn_of as turn_by, takes_text};
ghost use Rattle.reader.specs.Words.{is_htmltag};
ghost use Rattle.std.specs.Option.{option_map};
ghost use Rattle.std.specs.Str.{chars};
ghost use Rattle.reader.specs.Shown.{shown_effect, shown_turn};
ghost use Rattle.reader.specs.declared.state.ReadingState.{ReadingState as State};
ghost use Rattle.tokens.specs.Shown.{shown as shown_token};

use crate::state::ReadingState;
use crate::words::{Content, Named, Word, word_of};
use records::Kind;
use tokens::Token;

// What a token adds to the content.
#[derive(Clone, Copy)]
pub enum Effect {
    // A 16-bit unit.
    Unit(u16),
    // A byte, to be read in the code page.
    Byte(u8),
    // Characters outright.
    Given(&'static str),
    // A number that is no unit.
    Beyond,
}

// What a token does: the state that its group has after it, how many tokens are then skipped, and what it adds.
#[derive(Clone, Copy)]
pub struct Turn {
    // None where the state stays, as it mostly does: a state that stays is not copied.
    pub change: Option<ReadingState>,
    pub skip: u32,
    pub effect: Option<Effect>,
}

fn still() -> Turn
    ensures { (s : State) → shown_turn s result ≡ still_of s }
{
    Turn {
        change: None,
        skip: 0,
        effect: None,
    }
}

// The group goes on in another state.
fn becomes(state: ReadingState) -> Turn
    ensures { (s : State) → shown_turn s result ≡ still_of state }
{
    Turn {
        change: Some(state),
        skip: 0,
        effect: None,
    }
}

fn adds(effect: Effect) -> Turn
    ensures { (s : State) → shown_turn s result ≡ adds_to s (shown_effect effect) }
{
    Turn {
        change: None,
        skip: 0,
        effect: Some(effect),
    }
}

// The unit of a number: itself up to 65,535, and 65,536 more from -32,768 to -1.
fn unit_of(number: i32) -> Effect
    ensures { shown_effect result ≡ unit_of number }
{
    match (u16::try_from(number), i16::try_from(number)) {
        (Ok(unit), _) => Effect::Unit(unit),
        (_, Ok(unit)) => Effect::Unit(unit.cast_unsigned()),
        _ => Effect::Beyond,
    }
}

// A word that means something to content.
fn content_turn(kind: Kind, state: ReadingState, content: Content, number: Option<i32>) -> Turn
    ensures { shown_turn state result ≡ content_turn kind state content number }
{
    match content {
        Content::Break => adds(Effect::Given("\r\n")),
        Content::Tab => adds(Effect::Given("\t")),
        Content::Mark(named) => adds(Effect::Given(named.spelled(kind))),
        Content::Fallback => fallback_turn(state, number),
        Content::Unicode => unicode_turn(state, number),
    }
}

// `\uc` sets the fallback number, if it has a number that is not negative.
fn fallback_turn(state: ReadingState, number: Option<i32>) -> Turn
    ensures { shown_turn state result ≡ fallback_turn state number }
{
    match number {
        Some(count) if count >= 0 => becomes(ReadingState {
            fallback: count as u32,
            ..state
        }),
        _ => still(),
    }
}

// `\u` with a number adds a unit, and its fallbacks are skipped.
fn unicode_turn(state: ReadingState, number: Option<i32>) -> Turn
    ensures { shown_turn state result ≡ unicode_turn state number }
{
    match number {
        Some(number) => Turn {
            change: None,
            skip: state.fallback,
            effect: Some(unit_of(number)),
        },
        None => still(),
    }
}

// A backslash and a byte.
fn symbol_turn(kind: Kind, byte: u8) -> Turn
    ensures { (s : State) → shown_turn s result ≡ symbol_turn kind s byte }
{
    match symbol_text(kind, byte) {
        Some(text) => adds(Effect::Given(text)),
        None => still(),
    }
}

// The characters that a control symbol stands for.
fn symbol_text(kind: Kind, byte: u8) -> Option<&'static str>
    ensures { option_map (λ s. chars s.now) result ≡ symbol_text kind byte }
{
    match byte {
        b'\r' | b'\n' => Some("\r\n"),
        b'{' => Some("{"),
        b'}' => Some("}"),
        b'\\' => Some("\\"),
        b'~' => Some(Named::Nbsp.spelled(kind)),
        b'_' => Some(Named::Shy.spelled(kind)),
        _ => None,
    }
}

// A token where nothing keeps it from having effect, with what it means as a word, which is looked up once for a token.
fn plain_turn(kind: Kind, state: ReadingState, token: Token<'_>, word: Option<Word>) -> Turn
    requires { word ≡ means_of (shown_token token) }
    ensures { shown_turn state result ≡ plain_turn kind state (shown_token token.entry) }
{
    match token {
        Token::Word { number, .. } => match word {
            Some(Word::Content(content)) => content_turn(kind, state, content, number),
            _ => still(),
        },
        Token::Symbol(byte) => symbol_turn(kind, byte),
        Token::Hex(byte) | Token::Text(byte) => adds(Effect::Byte(byte)),
        Token::Open | Token::Close => still(),
    }
}

// What a token means as a word, if it means anything.
pub fn means(token: Token<'_>) -> Option<Word>
    ensures { result ≡ means_of (shown_token token.entry) }
{
    match token {
        Token::Word { name, .. } => word_of(name),
        _ => None,
    }
}

// Whether the token is the word `\htmltag`.
pub fn is_htmltag(token: Token<'_>) -> bool
    ensures { result ≡ is_htmltag (means_of (shown_token token.entry)) }
{
    matches!(means(token), Some(Word::Htmltag))
}

// Whether the token is the symbol `\*`.
pub fn is_star(token: Token<'_>) -> bool
    ensures { result ≡ is_star (shown_token token.entry) }
{
    matches!(token, Token::Symbol(b'*'))
}

// Whether a word has the number 0.
fn turns_off(token: Token<'_>) -> bool
    ensures { result ≡ turns_off (shown_token token.entry) }
{
    matches!(
        token,
        Token::Word {
            number: Some(0),
            ..
        }
    )
}

// What a token other than a brace does where none is skipped. `tag_next` says whether `\htmltag` comes next.
pub fn turn_of(kind: Kind, state: ReadingState, token: Token<'_>, tag_next: bool) -> Turn
    ensures { shown_turn state result ≡ turn_by kind state (shown_token token.entry) tag_next }
{
    let html = kind.is_html();
    let word = means(token);
    let htmlrtf = matches!(word, Some(Word::Htmlrtf));
    if state.silent {
        return still();
    }
    if html && state.suppressed && !htmlrtf {
        return still();
    }
    if !state.tag {
        if html && htmlrtf {
            return becomes(ReadingState {
                suppressed: !turns_off(token),
                ..state
            });
        }
        if is_star(token) {
            return becomes(starred(html && tag_next, state));
        }
        if matches!(word, Some(Word::Silent)) {
            return becomes(starred(false, state));
        }
    }
    plain_turn(kind, state, token, word)
}

// A destination that HTML keeps is a tag group, and any other is silent.
fn starred(tag: bool, state: ReadingState) -> ReadingState
    ensures { result ≡ (if tag then make_tag state else silence state) }
{
    if tag {
        ReadingState { tag: true, ..state }
    } else {
        ReadingState {
            silent: true,
            ..state
        }
    }
}

// Whether a text byte adds itself to a group, as `turn_of` has it: a walk then takes a run of text in one step.
pub fn takes_text(kind: Kind, state: ReadingState) -> bool
    ensures { result ≡ takes_text kind state }
{
    !state.silent && !(kind.is_html() && state.suppressed)
}
