// The texts that records are put together from.

pub const STARTS: &[&str] = &[
    "",
    "{",
    "{\\rtf",
    "{\\rtf2",
    "{\\rtf10",
    "{\\rtf1-1",
    "\\rtf1",
    " {\\rtf1",
    "{\\RTF1",
    "{\\rtf 1",
];

// Words that may stand before or between the marks.
pub const FILLERS: &[&str] = &[
    "\\ansi",
    "\\mac",
    "\\deff0",
    "\\deflang1033 ",
    "{\\fonttbl",
    "{",
    "\\uc1 ",
    "\\fromhtml0",
    "\\fromtext1 ",
    "\\fromhtml",
];

// What no mark may follow.
pub const ENDS_OF_SEARCH: &[&str] = &["x", "\\*", "\\'41", "{\\info}", " ", "\\~"];

pub const MARKS: &[&str] = &[
    "\\fromhtml1",
    "\\fromhtml1 ",
    "\\fromtext",
    "\\fromtext ",
    "\\fromhtml01 ",
    "\\fromtext\r\n",
    "\\fromhtml2 ",
    "\\fromtext0 ",
];

pub const PAGES: &[&str] = &[
    "1252",
    "1251",
    "20127",
    "",
    "0",
    "-1252",
    "01252",
    "437",
    "65001",
    "2147483647",
];

pub const WORDS: &[&str] = &[
    "par",
    "line",
    "tab",
    "lquote",
    "rquote",
    "ldblquote",
    "rdblquote",
    "bullet",
    "endash",
    "emdash",
    "htmlrtf",
    "htmlrtf",
    "htmltag",
    "u",
    "uc",
    "b",
    "i",
    "plain",
    "pard",
    "f",
    "fs",
    "bin",
    "ansicpg",
    "fromhtml",
    "fromtext",
    "Par",
    "PAR",
    "parx",
    "lin",
    "tabs",
    "ucx",
    "ux",
    "headerx",
    "headers",
    "footers",
    "rtf",
    "pict",
    "info",
    "object",
    "fonttbl",
    "footnote",
    "pntext",
    "header",
    "footer",
];

pub const NUMBERS: &[&str] = &[
    "",
    "",
    "",
    "",
    "0",
    "1",
    "2",
    "-1",
    "-0",
    "00",
    "0000000001",
    "2147483647",
    "-2147483648",
    "84",
    "-",
    "--1",
];

pub const BAD_NUMBERS: &[&str] = &[
    "2147483648",
    "-2147483649",
    "9999999999",
    "00000000001",
    "-00000000000",
    "12345678901234567890123",
];

pub const DELIMITERS: &[&str] = &["", " ", " ", "  ", "\r\n", "\n", ";", "-"];

pub const SILENT: &[&str] = &[
    "fonttbl",
    "colortbl",
    "stylesheet",
    "info",
    "pict",
    "object",
    "header",
    "headerl",
    "headerr",
    "headerf",
    "footer",
    "footerl",
    "footerr",
    "footerf",
    "footnote",
    "pntext",
    "headerx",
    "footnotes",
];

pub const SYMBOLS: &[&str] = &[
    "\\~", "\\_", "\\{", "\\}", "\\\\", "\\\r", "\\\n", "\\\r\n", "\\-", "\\:", "\\|", "\\ ",
    "\\1", "\\0", "\\;", "\\*",
];

pub const PLAIN: &[&str] = &[
    "a",
    "text",
    "Hello, world",
    " ",
    "<b>",
    "&amp;",
    "\r\n",
    "\n",
    "-",
    "12",
    "\t",
    "'",
];

// Groups with a tag or a silent destination, whole.
pub const GROUPS: &[&str] = &[
    "{\\*\\htmltag64 <p>}",
    "{\\*\\htmltag <a href=\"x\">}",
    "{\\*\\htmltag4 \\par }",
    "{\\*\\htmltag8 \\htmlrtf x\\htmlrtf0 }",
    "{\\*\\htmltag8 \\*y\\pict z}",
    "{\\*\\generator gone;}",
    "{\\*\r\n\\htmltag1 b}",
    "{\\* \\htmltag1 b}",
    "{\\*{\\htmltag1 b}}",
    "{\\fonttbl{\\f0 Arial;}}",
    "{\\htmlrtf{\\f1 gone}\\htmlrtf0 there}",
    "{\\*\\htmltag {\\b x}\\'e9\\u233?}",
    "{\\uc2 \\u233??x}",
    "{\\htmltag x}",
    "{\\pict\\bin4 }{}\\}",
    "{\\*\\Htmltag x}",
];

pub const SUPPRESSED: &[&str] = &[
    "\\htmlrtf ",
    "\\htmlrtf0 ",
    "\\htmlrtf1 ",
    "\\htmlrtf0",
    "\\htmlrtf \\par\\htmlrtf0 ",
    "\\htmlrtf{\\b x}\\htmlrtf0 ",
    "\\htmlrtf-0 ",
    "\\htmlrtf\\u233?\\'e9\\htmlrtf0 ",
];

pub const UNITS: &[&str] = &[
    "0", "9", "65", "127", "128", "233", "2047", "2048", "8364", "55295", "57344", "65533",
    "65535", "-1", "-3", "-8192", "-10241", "-32768",
];

pub const BEYOND: &[&str] = &[
    "65536",
    "-32769",
    "2147483647",
    "-2147483648",
    "70000",
    "100000",
    "-65536",
    "0000065536",
];

pub const HIGH_HALVES: &[&str] = &["-10240", "55296", "-10179", "55357", "-9217", "56319"];

pub const LOW_HALVES: &[&str] = &["-9216", "56320", "-8704", "56832", "-8193", "57343"];

// What does no harm between two halves, where one fallback token follows each.
pub const BETWEEN: &[&str] = &[
    "",
    "",
    "",
    "\r\n",
    "\\b0 ",
    "{\\pict x}",
    "{}",
    "{\\*\\other x}",
    "\\ucx ",
    "\\-",
    "\\uc1 ",
    "\\u ",
];

// What parts two halves.
pub const PARTING: &[&str] = &["x", "\\par ", "\\~", "\\'41", "\\u65?", "\\'81"];

pub const FALLBACKS: &[&str] = &[
    "?",
    "?",
    "?",
    "?",
    "\\'3f",
    "\\'81",
    "\\par ",
    "\\bin2 {}",
    "\\u65",
    "\\*",
    "",
    "??",
    "\r\n?",
    "{?}",
];

pub const FAULTY: &[&str] = &[
    "\\'",
    "\\'4",
    "\\'g0",
    "\\'0g",
    "\\'4\r1",
    "\\' 41",
    "\\aaaaaaaaaaaaaaaaaaaaaaaaaaaaaaaaa",
    "\\bin99999 ",
];

pub const LONGEST: &[&str] = &[
    "\\aaaaaaaaaaaaaaaaaaaaaaaaaaaaaaaa",
    "\\AbcdefghijklmnopqrstuvwxyzABCDEF1 ",
    "\\bin0 ",
    "\\bin-3 ",
];

pub const TRAILS: &[&str] = &["", "", "", "\r\n", "\0", "\0\r\n\0", "\n\n", "\r\n\r\n\0\0"];

pub const BAD_TRAILS: &[&str] = &[" ", "}", "{\\rtf1}", "\r\nx", "\0\0\t", "\\"];

// Ends of bytes in the midst of a token or a group.
pub const CUT_ENDS: &[&str] = &[
    "\\bin3",
    "\\b2147483648",
    "\\bin-2147483649",
    "\\b-",
    "\\u12",
    "\\bin0",
    "\\bin2 }",
    "\\'4",
];
