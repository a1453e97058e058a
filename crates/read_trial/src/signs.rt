// The words and symbols that the second reading looks up.

// A character that has a name in HTML.
#[derive(Clone, Copy)]
pub struct Sign {
    pub character: char,
    pub entity: &'static str,
}

// The character of a word that stands for one.
pub fn word_sign(name: &str) -> Option<Sign> {
    let (character, entity) = match name {
        "lquote" => ('\u{2018}', "&lsquo;"),
        "rquote" => ('\u{2019}', "&rsquo;"),
        "ldblquote" => ('\u{201C}', "&ldquo;"),
        "rdblquote" => ('\u{201D}', "&rdquo;"),
        "bullet" => ('\u{2022}', "&bull;"),
        "endash" => ('\u{2013}', "&ndash;"),
        "emdash" => ('\u{2014}', "&mdash;"),
        _ => return None,
    };
    Some(Sign { character, entity })
}

// The character of a control symbol that stands for another.
pub fn symbol_sign(symbol: u8) -> Option<Sign> {
    let (character, entity) = match symbol {
        b'~' => ('\u{A0}', "&nbsp;"),
        b'_' => ('\u{AD}', "&shy;"),
        _ => return None,
    };
    Some(Sign { character, entity })
}

// The words that silence their group.
const SILENT: &[&str] = &[
    "fonttbl",
    "colortbl",
    "stylesheet",
    "info",
    "pict",
    "object",
    "footnote",
    "pntext",
    "header",
    "headerl",
    "headerr",
    "headerf",
    "footer",
    "footerl",
    "footerr",
    "footerf",
];

pub fn is_silent(name: &str) -> bool {
    SILENT.contains(&name)
}
