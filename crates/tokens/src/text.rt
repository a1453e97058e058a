// Runs of plain text. Most of a record is text, and a run of it is taken in one step.
ghost use Rattle.std.specs.Prelude.{◌≡◌, ◌+◌, ◌≤◌, max, length, drop};
ghost use Rattle.std.specs.List.{prefix_len};
ghost use Rattle.tokens.specs.Tokens.{is_plain};

use crate::scan::{Class, run_length};

// Where the run of plain text that begins at `from` ends. Each of its bytes is a token.
pub fn text_end(bytes: &[u8], from: usize) -> usize
    ensures value { result ≡ from + prefix_len is_plain (drop from bytes.now) }
    ensures bound { result ≤ max from (length bytes.now) }
{
    if from >= bytes.len() {
        return from;
    }
    from + run_length(&bytes[from..], Class::Plain)
}
