// What can be wrong with the groups of a record.
ghost use Rattle.std.specs.Prelude.{◌≡◌};
ghost use Rattle.groups.specs.Faults.{number_of, place_of, layer_of};
ghost use Rattle.groups.specs.declared.faults.GroupFault.TheVariants.{Token as ByToken};

use layers::{Fault, Layer};
use tokens::TokenFault;

// A fault of the groups or of a token below them.
#[derive(Clone, Copy, PartialEq, Eq, Debug)]
pub enum GroupFault {
    // A fault of a token, passed up whole.
    Token(TokenFault),
    // A group opens where the stack of open groups is full: the place of its brace.
    TooDeep(usize),
    // The bytes end with a group open: the place of the last group opened and not closed.
    Unclosed(usize),
}

// Lets `?` pass a token's fault up. Written out, since contracts name the fault that comes of it.
impl From<TokenFault> for GroupFault {
    ghost from_gives = { λ e r. r ≡ ByToken e };

    fn from(e: TokenFault) -> GroupFault {
        GroupFault::Token(e)
    }
}

impl Fault for GroupFault {
    ghost number = { number_of };

    ghost place = { place_of };

    ghost layer = { layer_of };

    fn number(&self) -> u8 {
        match self {
            GroupFault::Token(f) => f.number(),
            GroupFault::TooDeep(_) => 3,
            GroupFault::Unclosed(_) => 4,
        }
    }

    fn place(&self) -> usize {
        match self {
            GroupFault::Token(f) => f.place(),
            GroupFault::TooDeep(at) => *at,
            GroupFault::Unclosed(at) => *at,
        }
    }

    fn layer(&self) -> Layer {
        match self {
            GroupFault::Token(f) => f.layer(),
            GroupFault::TooDeep(_) => Layer::Groups,
            GroupFault::Unclosed(_) => Layer::Groups,
        }
    }
}
