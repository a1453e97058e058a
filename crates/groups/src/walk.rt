// The walk to the brace that closes a group.
ghost use Rattle.std.specs.Prelude.{◌≡◌, ◌<◌, ◌≤◌, length, IfOk};
ghost use Rattle.groups.specs.Groups.{group_end};

use crate::faults::GroupFault;
use crate::stack::{MAX_OPEN, Stack};
use tokens::{Brace, next_brace};

// The place after the brace that closes the group whose brace stands at `place`.
pub fn group_end(bytes: &[u8], place: usize) -> Result<usize, GroupFault>
    ensures value { result ≡ group_end place bytes.now }
    ensures bound { IfOk result (λ n. (place < n) × (n ≤ length bytes.now)) }
{
    if place >= bytes.len() {
        return Err(GroupFault::Unclosed(place));
    }
    let mut room = [0; MAX_OPEN];
    let mut stack = Stack::new(&mut room);
    stack.push(place)?;
    // The place after a brace is known once it is found, so no range counts it.
    let mut at = place + 1;
    while let Some(brace) = next_brace(bytes, at)? {
        match brace {
            Brace::Open(opened) => {
                stack.push(opened)?;
                at = opened + 1;
            }
            Brace::Close(closed) => {
                at = closed + 1;
                let _ = stack.pop();
                if stack.depth() == 0 {
                    return Ok(at);
                }
            }
        }
    }
    Err(GroupFault::Unclosed(stack.top().unwrap_or(0)))
}
