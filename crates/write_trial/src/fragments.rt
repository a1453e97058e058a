// The texts that pieces and decoration are put together from.

pub const ASCII: &[&str] = &[
    "a",
    "Hello, world",
    "the quick brown fox ",
    " ",
    "  ",
    "!\"#$%&'()*+,-./",
    "0123456789",
    "~",
    "?",
    "u8364?",
];

pub const LATIN: &[&str] = &[
    "\u{E9}t\u{E9}",
    "\u{20AC}5",
    "\u{A0}",
    "\u{FF}",
    "\u{152}uvre",
    "\u{2013}\u{2014}\u{2018}\u{2019}",
    "\u{E6}\u{F8}\u{E5}",
    "\u{178}\u{192}",
];

pub const CYRILLIC: &[&str] = &[
    "\u{41F}\u{440}\u{438}\u{432}\u{435}\u{442}",
    "\u{401}\u{451}",
    "\u{2116}",
    "\u{490}\u{491}",
    "\u{402}\u{45F}",
    "\u{44F}",
];

// What none of the pages has, within 16 bits.
pub const WIDE: &[&str] = &[
    "\u{65E5}\u{672C}\u{8A9E}",
    "\u{4E2D}\u{6587}",
    "\u{D55C}\u{AE00}",
    "\u{3042}",
    "\u{7FFF}\u{8000}",
    "\u{D7FF}\u{E000}",
    "\u{FFFF}",
    "\u{FEFF}",
    "\u{100}\u{1FF}",
    "\u{5D0}\u{627}",
];

// What takes two units.
pub const BEYOND: &[&str] = &[
    "\u{1F600}",
    "\u{1F469}\u{200D}\u{1F4BB}",
    "\u{10000}",
    "\u{10FFFF}",
    "\u{103FF}\u{10400}",
    "\u{20000}",
    "\u{FFFFF}\u{100000}",
    "\u{1D11E}",
];

pub const BREAKS: &[&str] = &[
    "\r\n",
    "\r",
    "\n",
    "\n\r",
    "\r\r\n",
    "\r\n\n",
    "\r\n\r\n",
    "\r\r",
    "\r\u{E9}\n",
    "\rx",
];

pub const CONTROLS: &[&str] = &[
    "\t",
    "\t\t",
    "\u{0}",
    "\u{1}\u{1F}",
    "\u{7F}",
    "\u{81}\u{8D}\u{98}",
    "\u{80}\u{9F}",
    "\u{B}\u{C}",
];

pub const SPECIAL: &[&str] = &[
    "{",
    "}",
    "\\",
    "{}",
    "}{",
    "\\\\",
    "\\par ",
    "{\\rtf1}",
    "\\'e9",
    "\\u-10179?",
];

pub const MARKUP: &[&str] = &[
    "<p>",
    "</p>",
    "<a href=\"x\">",
    "&nbsp;",
    "<br>\r\n",
    "<style>p {color: red}</style>",
    "<!-- \u{E9} -->",
    "\t<td>",
];

// Bytes that are no UTF-8, though some are a part of it.
pub const BROKEN: &[&[u8]] = &[
    b"\x80",
    b"\xBF",
    b"\xC0\x80",
    b"\xC1\xBF",
    b"\xC3",
    b"\xC3(",
    b"\xDF",
    b"\xE0\x80\x80",
    b"\xE0\x9F\xBF",
    b"\xE2\x82",
    b"\xE2(\xA1",
    b"\xED\xA0\x80",
    b"\xED\xBF\xBF",
    b"\xEF\xBF",
    b"\xF0\x80\x80\x80",
    b"\xF0\x8F\xBF\xBF",
    b"\xF0\x9F\x98",
    b"\xF0\x9F\x98x",
    b"\xF4\x90\x80\x80",
    b"\xF5\x80\x80\x80",
    b"\xF8\x88\x80\x80\x80",
    b"\xFE",
    b"\xFF",
    b"\xFF\xFE",
];

// Decoration that may stand.
pub const DRESSING: &[&str] = &[
    "\\b ",
    "\\b0 ",
    "\\i",
    "\\f0\\fs24 ",
    "plain text",
    " ",
    "~",
    "{\\b x}",
    "{\\*\\pn{\\pntxta .}}",
    "\\'e9",
    "\\'E9",
    "\\'4a5",
    "\\{",
    "\\}",
    "\\\\",
    "\\~\\_\\-\\*",
    "\\par-12  x",
    "\\par-x",
    "\\par--1",
    "\\u8364?",
    "\\fs2147483647 ",
    "\\li-2147483648",
    "\\fs0000000012",
    "\\abcdefghijklmnopqrstuvwxyzabcdef",
    "\\htmlrtfx ",
    "\\binary1",
    "\\HTMLRTF",
    "\\fromhtm1",
];

// Words of the encapsulation itself.
pub const MARKERS: &[&str] = &[
    "\\htmlrtf",
    "\\htmltag",
    "\\mhtmltag",
    "\\htmlbase",
    "\\fromhtml",
    "\\fromtext",
    "\\bin",
];

pub const NUMBERS: &[&str] = &[
    "",
    " ",
    "0 ",
    "1",
    "-1 ",
    "-",
    "64",
    "2147483648",
    "-2147483649 ",
    "12345678901",
    "00000000000",
    "99999",
];

// Faulty tokens.
pub const FAULTY: &[&str] = &[
    "\\'",
    "\\'4",
    "\\'4g",
    "\\'g4",
    "\\' 41",
    "\\b2147483648",
    "\\b-2147483649 ",
    "\\b12345678901",
    "\\b00000000000 ",
    "\\abcdefghijklmnopqrstuvwxyzabcdefg",
];

// Bytes that decoration may not have.
pub const UNPRINTABLE: &[&[u8]] = &[
    b"\x1F", b"\x7F", b"\r\n", b"\n", b"\t", b"\xE9", b"\xFF", b"\0",
];
