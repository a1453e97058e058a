// The words that reading knows by name.
ghost use Rattle.std.specs.Prelude.{◌≡◌};
ghost use Rattle.std.specs.Str.{chars};
ghost use Rattle.reader.specs.Words.{word_of, spelled as spelling};
ghost use Rattle.records.specs.declared.kinds.Kind.TheVariants.{Html as Markup, Text as Plain};

use records::Kind;

// A character that HTML 4 names.
#[derive(Clone, Copy)]
pub enum Named {
    Lsquo,
    Rsquo,
    Ldquo,
    Rdquo,
    Bull,
    Ndash,
    Mdash,
    Nbsp,
    Shy,
}

// A word that means something to content.
#[derive(Clone, Copy)]
pub enum Content {
    // A line break.
    Break,
    Tab,
    Mark(Named),
    // `\uc`: how many tokens stand in for a unit.
    Fallback,
    // `\u`: a 16-bit unit.
    Unicode,
}

// What a word means to reading.
#[derive(Clone, Copy)]
pub enum Word {
    Htmlrtf,
    Htmltag,
    // A destination whose group adds nothing.
    Silent,
    Content(Content),
}

// What a name means to reading, if it means anything.
pub fn word_of(name: &[u8]) -> Option<Word>
    ensures { result ≡ word_of name.now }
{
    match name {
        b"htmlrtf" => Some(Word::Htmlrtf),
        b"htmltag" => Some(Word::Htmltag),
        b"par" | b"line" => Some(Word::Content(Content::Break)),
        b"tab" => Some(Word::Content(Content::Tab)),
        b"u" => Some(Word::Content(Content::Unicode)),
        b"uc" => Some(Word::Content(Content::Fallback)),
        b"lquote" => Some(Word::Content(Content::Mark(Named::Lsquo))),
        b"rquote" => Some(Word::Content(Content::Mark(Named::Rsquo))),
        b"ldblquote" => Some(Word::Content(Content::Mark(Named::Ldquo))),
        b"rdblquote" => Some(Word::Content(Content::Mark(Named::Rdquo))),
        b"bullet" => Some(Word::Content(Content::Mark(Named::Bull))),
        b"endash" => Some(Word::Content(Content::Mark(Named::Ndash))),
        b"emdash" => Some(Word::Content(Content::Mark(Named::Mdash))),
        b"fonttbl" | b"colortbl" | b"stylesheet" | b"info" | b"pict" | b"object" => Some(
            Word::Silent,
        ),
        b"header" | b"headerl" | b"headerr" | b"headerf" => Some(Word::Silent),
        b"footer" | b"footerl" | b"footerr" | b"footerf" => Some(Word::Silent),
        b"footnote" | b"pntext" => Some(Word::Silent),
        _ => None,
    }
}

impl Named {
    // The character itself in text, and its HTML entity in HTML. Two matches: each has its own promise, on its own kind.
    pub fn spelled(self, kind: Kind) -> &'static str
        ensures { chars result.now ≡ spelling kind self }
    {
        match kind {
            Kind::Html => self.entity(),
            Kind::Text => self.character(),
        }
    }

    fn entity(self) -> &'static str
        ensures { chars result.now ≡ spelling Markup self }
    {
        match self {
            Named::Lsquo => "&lsquo;",
            Named::Rsquo => "&rsquo;",
            Named::Ldquo => "&ldquo;",
            Named::Rdquo => "&rdquo;",
            Named::Bull => "&bull;",
            Named::Ndash => "&ndash;",
            Named::Mdash => "&mdash;",
            Named::Nbsp => "&nbsp;",
            Named::Shy => "&shy;",
        }
    }

    fn character(self) -> &'static str
        ensures { chars result.now ≡ spelling Plain self }
    {
        match self {
            Named::Lsquo => "\u{2018}",
            Named::Rsquo => "\u{2019}",
            Named::Ldquo => "\u{201C}",
            Named::Rdquo => "\u{201D}",
            Named::Bull => "\u{2022}",
            Named::Ndash => "\u{2013}",
            Named::Mdash => "\u{2014}",
            Named::Nbsp => "\u{A0}",
            Named::Shy => "\u{AD}",
        }
    }
}
