// Runs of bytes of one class, and the number of a control word.
ghost use Rattle.std.specs.Prelude.{◌≡◌, ◌<◌, ◌≤◌, length, IfSome, if◌then◌else◌, Some, None};
ghost use Rattle.std.specs.Str.Parse.{digits_value as value_of, AllDigits};
ghost use Rattle.std.specs.Char.{is_ascii_hexdigit, digit_value};
ghost use Rattle.std.specs.List.{prefix_len};
ghost use Rattle.tokens.specs.Tokens.{within, is_layout, is_passive, begins, limited as limited_by, number, byte_of};
ghost use Rattle.tokens.specs.Bounds.{NumberFits};

use crate::faults::Flaw;

// The most digits that a number has.
const MAX_DIGITS: usize = 10;

// The classes of bytes that come in runs. An enum and no closures: the definitions name these classes too.
#[derive(Clone, Copy)]
pub enum Class {
    Letter,
    Digit,
    Layout,
    // Plain text: ASCII, and neither a brace nor a backslash nor layout.
    Plain,
    // Neither a brace nor a backslash.
    Passive,
}

impl Class {
    fn has(self, b: u8) -> bool
        ensures { result ≡ within self b }
    {
        match self {
            Class::Letter => b.is_ascii_alphabetic(),
            Class::Digit => b.is_ascii_digit(),
            Class::Layout => is_layout(b),
            Class::Plain => b < 128 && is_passive(b) && !is_layout(b),
            Class::Passive => is_passive(b),
        }
    }
}

fn is_layout(b: u8) -> bool
    ensures { result ≡ is_layout b }
{
    b == b'\r' || b == b'\n'
}

fn is_passive(b: u8) -> bool
    ensures { result ≡ is_passive b }
{
    !matches!(b, b'{' | b'}' | b'\\')
}

// How many of the first bytes are of a class.
pub fn run_length(bytes: &[u8], class: Class) -> usize
    ensures value { result ≡ prefix_len (within class) bytes.now }
    ensures bound { result ≤ length bytes.now }
{
    bytes.iter().take_while(|b| class.has(**b)).count()
}

// 1 where the bytes begin with `b`, else 0.
pub fn begins_with(bytes: &[u8], b: u8) -> usize
    ensures value { result ≡ begins b bytes.now }
    ensures bound { result ≤ length bytes.now }
{
    usize::from(bytes.first() == Some(&b))
}

// The value of at most ten digits. Not `parse`: that wants a text, and these are bytes that are known to be digits.
fn decimal(digits: &[u8]) -> u64
    requires digits { AllDigits 10 digits.now }
    requires few { length digits.now ≤ 10 }
    ensures { result ≡ value_of 10 digits.now }
{
    let mut n: u64 = 0;
    for d in digits {
        n = n * 10 + u64::from(*d - b'0');
    }
    n
}

// A number, and how many bytes it takes.
#[derive(Clone, Copy)]
pub struct Numeral {
    pub value: i32,
    pub length: usize,
}

// A number of a magnitude, with a minus or none.
fn limited(minus: usize, magnitude: u64, digits: usize) -> Result<Option<Numeral>, Flaw>
    requires sign { minus ≤ 1 }
    requires fits { digits ≤ 10 }
    ensures { result ≡ limited_by minus magnitude digits }
{
    if magnitude > 2147483647 + minus as u64 {
        return Err(Flaw::LongNumber);
    }
    let value = if minus == 0 {
        magnitude as i64
    } else {
        -(magnitude as i64)
    };
    Ok(Some(Numeral {
        value: value as i32,
        length: minus + digits,
    }))
}

// The number that the bytes begin with, if they do: an optional minus and the longest run of digits.
pub fn number_at(bytes: &[u8]) -> Result<Option<Numeral>, Flaw>
    ensures value { result ≡ number bytes.now }
    ensures bound { NumberFits (length bytes.now) result }
{
    let minus = begins_with(bytes, b'-');
    let rest = &bytes[minus..];
    let digits = run_length(rest, Class::Digit);
    if digits == 0 {
        return Ok(None);
    }
    if digits > MAX_DIGITS {
        return Err(Flaw::LongNumber);
    }
    limited(minus, decimal(&rest[..digits]), digits)
}

// The value of a hexadecimal digit of either case.
fn hex_digit(b: u8) -> Option<u8>
    ensures value { result ≡ (if is_ascii_hexdigit b then Some (digit_value b) else None) }
    ensures bound { IfSome result (λ d. d < 16) }
{
    char::from(b).to_digit(16).map(|d| d as u8)
}

// The byte that two hexadecimal digits stand for.
pub fn hex_pair(high: u8, low: u8) -> Option<u8>
    ensures { result ≡ byte_of high low }
{
    let high = hex_digit(high)?;
    let low = hex_digit(low)?;
    Some(16 * high + low)
}
