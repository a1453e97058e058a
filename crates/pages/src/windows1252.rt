// Code page 1252, by its table.
ghost use Rattle.pages.specs.Windows.{chars1252};
ghost use Rattle.pages.specs.Computed.{computed1252};
ghost use Rattle.std.proofs.Common.{rules};

use crate::table::{TablePage, characters, codes};

// Code page 1252: Western European languages.
#[derive(Clone, Copy)]
pub struct Windows1252;

impl TablePage for Windows1252 {
    const NUMBER: u16 = 1252;

    ghost NUMBER = { 1252 };

    ghost characters = { chars1252 };

    ghost in_range = { Prim.search rules };

    ghost facts = { computed1252 };

    // That the table is the mapping that specs/ writes down is proved here, once.
    #[tactic(auto, unfolding(crate::specs::Windows::chars1252))]
    fn table() -> &'static [Option<char>; 256] {
        &CHARACTERS
    }

    // And here that the codes are those of the mapping.
    #[tactic(auto, unfolding(crate::specs::Windows::chars1252))]
    fn codes() -> &'static [u16; 256] {
        &CODES
    }
}

// The characters by byte, as the Unicode Consortium maps them. They are listed once, and the given macro makes an array of them.
macro_rules! entries {
    ($array:ident) => {
        $array![
            // 0x00 to 0x0F
            '\u{0000}', '\u{0001}', '\u{0002}', '\u{0003}', '\u{0004}', '\u{0005}', '\u{0006}', '\u{0007}',
            '\u{0008}', '\u{0009}', '\u{000A}', '\u{000B}', '\u{000C}', '\u{000D}', '\u{000E}', '\u{000F}',
            // 0x10 to 0x1F
            '\u{0010}', '\u{0011}', '\u{0012}', '\u{0013}', '\u{0014}', '\u{0015}', '\u{0016}', '\u{0017}',
            '\u{0018}', '\u{0019}', '\u{001A}', '\u{001B}', '\u{001C}', '\u{001D}', '\u{001E}', '\u{001F}',
            // 0x20 to 0x2F
            '\u{0020}', '\u{0021}', '\u{0022}', '\u{0023}', '\u{0024}', '\u{0025}', '\u{0026}', '\u{0027}',
            '\u{0028}', '\u{0029}', '\u{002A}', '\u{002B}', '\u{002C}', '\u{002D}', '\u{002E}', '\u{002F}',
            // 0x30 to 0x3F
            '\u{0030}', '\u{0031}', '\u{0032}', '\u{0033}', '\u{0034}', '\u{0035}', '\u{0036}', '\u{0037}',
            '\u{0038}', '\u{0039}', '\u{003A}', '\u{003B}', '\u{003C}', '\u{003D}', '\u{003E}', '\u{003F}',
            // 0x40 to 0x4F
            '\u{0040}', '\u{0041}', '\u{0042}', '\u{0043}', '\u{0044}', '\u{0045}', '\u{0046}', '\u{0047}',
            '\u{0048}', '\u{0049}', '\u{004A}', '\u{004B}', '\u{004C}', '\u{004D}', '\u{004E}', '\u{004F}',
            // 0x50 to 0x5F
            '\u{0050}', '\u{0051}', '\u{0052}', '\u{0053}', '\u{0054}', '\u{0055}', '\u{0056}', '\u{0057}',
            '\u{0058}', '\u{0059}', '\u{005A}', '\u{005B}', '\u{005C}', '\u{005D}', '\u{005E}', '\u{005F}',
            // 0x60 to 0x6F
            '\u{0060}', '\u{0061}', '\u{0062}', '\u{0063}', '\u{0064}', '\u{0065}', '\u{0066}', '\u{0067}',
            '\u{0068}', '\u{0069}', '\u{006A}', '\u{006B}', '\u{006C}', '\u{006D}', '\u{006E}', '\u{006F}',
            // 0x70 to 0x7F
            '\u{0070}', '\u{0071}', '\u{0072}', '\u{0073}', '\u{0074}', '\u{0075}', '\u{0076}', '\u{0077}',
            '\u{0078}', '\u{0079}', '\u{007A}', '\u{007B}', '\u{007C}', '\u{007D}', '\u{007E}', '\u{007F}',
            // 0x80 to 0x8F
            '\u{20AC}', None, '\u{201A}', '\u{0192}', '\u{201E}', '\u{2026}', '\u{2020}', '\u{2021}',
            '\u{02C6}', '\u{2030}', '\u{0160}', '\u{2039}', '\u{0152}', None, '\u{017D}', None,
            // 0x90 to 0x9F
            None, '\u{2018}', '\u{2019}', '\u{201C}', '\u{201D}', '\u{2022}', '\u{2013}', '\u{2014}',
            '\u{02DC}', '\u{2122}', '\u{0161}', '\u{203A}', '\u{0153}', None, '\u{017E}', '\u{0178}',
            // 0xA0 to 0xAF
            '\u{00A0}', '\u{00A1}', '\u{00A2}', '\u{00A3}', '\u{00A4}', '\u{00A5}', '\u{00A6}', '\u{00A7}',
            '\u{00A8}', '\u{00A9}', '\u{00AA}', '\u{00AB}', '\u{00AC}', '\u{00AD}', '\u{00AE}', '\u{00AF}',
            // 0xB0 to 0xBF
            '\u{00B0}', '\u{00B1}', '\u{00B2}', '\u{00B3}', '\u{00B4}', '\u{00B5}', '\u{00B6}', '\u{00B7}',
            '\u{00B8}', '\u{00B9}', '\u{00BA}', '\u{00BB}', '\u{00BC}', '\u{00BD}', '\u{00BE}', '\u{00BF}',
            // 0xC0 to 0xCF
            '\u{00C0}', '\u{00C1}', '\u{00C2}', '\u{00C3}', '\u{00C4}', '\u{00C5}', '\u{00C6}', '\u{00C7}',
            '\u{00C8}', '\u{00C9}', '\u{00CA}', '\u{00CB}', '\u{00CC}', '\u{00CD}', '\u{00CE}', '\u{00CF}',
            // 0xD0 to 0xDF
            '\u{00D0}', '\u{00D1}', '\u{00D2}', '\u{00D3}', '\u{00D4}', '\u{00D5}', '\u{00D6}', '\u{00D7}',
            '\u{00D8}', '\u{00D9}', '\u{00DA}', '\u{00DB}', '\u{00DC}', '\u{00DD}', '\u{00DE}', '\u{00DF}',
            // 0xE0 to 0xEF
            '\u{00E0}', '\u{00E1}', '\u{00E2}', '\u{00E3}', '\u{00E4}', '\u{00E5}', '\u{00E6}', '\u{00E7}',
            '\u{00E8}', '\u{00E9}', '\u{00EA}', '\u{00EB}', '\u{00EC}', '\u{00ED}', '\u{00EE}', '\u{00EF}',
            // 0xF0 to 0xFF
            '\u{00F0}', '\u{00F1}', '\u{00F2}', '\u{00F3}', '\u{00F4}', '\u{00F5}', '\u{00F6}', '\u{00F7}',
            '\u{00F8}', '\u{00F9}', '\u{00FA}', '\u{00FB}', '\u{00FC}', '\u{00FD}', '\u{00FE}', '\u{00FF}',
        ]
    };
}

static CHARACTERS: [Option<char>; 256] = entries!(characters);

static CODES: [u16; 256] = entries!(codes);
