// The kinds of content.
ghost use Rattle.std.specs.Prelude.{◌≡◌, Some};
ghost use Rattle.records.specs.Kinds.{is_html, name_of};

use std::fmt;

// What a record encapsulates.
#[derive(Clone, Copy, PartialEq, Eq, Debug)]
pub enum Kind {
    Html,
    Text,
}

impl Kind {
    pub fn is_html(self) -> bool
        ensures { result ≡ is_html self }
    {
        matches!(self, Kind::Html)
    }
}

// Prints `html` or `text`.
impl fmt::Display for Kind {
    ghost output = { λ kind. Some (name_of kind) };

    fn fmt<W: fmt::Write>(&self, f: &mut fmt::Formatter<W>) -> fmt::Result {
        f.write_str(match self {
            Kind::Html => "html",
            Kind::Text => "text",
        })
    }
}
