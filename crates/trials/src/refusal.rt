// What a second implementation refuses, and what else keeps it from going on.
ghost use Rattle.std.specs.Prelude.{◌≡◌, IfOk, IfErr};
ghost use Rattle.layers.specs.declared.refusal.Refusal.{Refusal as RefusalOf};

use crate::scan::Faulty;
use layers::{Layer, Refusal};
use std::alloc::AllocError;
use thiserror::Error;

// Why a second implementation refuses, with the format's number: these are written down once more, for comparison with what
// the library's faults tell.
#[derive(Clone, Copy)]
pub enum Reason {
    NotRtf = 1,
    FaultyToken = 2,
    TooDeep = 3,
    Unclosed = 4,
    Trailing = 5,
    NoMark = 6,
    WrongPage = 7,
    NoCharacter = 8,
    NoUnit = 9,
    LoneHalf = 10,
    TooLongToRead = 12,
    NotUtf8 = 13,
    Unbalanced = 14,
    MarkerWord = 15,
    NotPrintable = 16,
    NoneOpen = 21,
    AlreadyOpen = 22,
    TextOpen = 23,
    NoSpace = 24,
    TooLongToWrite = 25,
    ShortBuffer = 26,
}

impl Reason {
    fn layer(self) -> Layer {
        match self {
            Reason::FaultyToken => Layer::Tokens,
            Reason::TooDeep | Reason::Unclosed | Reason::Unbalanced => Layer::Groups,
            Reason::NotRtf | Reason::Trailing | Reason::NoMark | Reason::WrongPage => Layer::Record,
            Reason::NoCharacter | Reason::NoUnit | Reason::LoneHalf => Layer::Record,
            Reason::TooLongToRead | Reason::ShortBuffer => Layer::Record,
            _ => Layer::Writer,
        }
    }

    // The refusal for this reason at a place.
    pub fn at(self, place: usize) -> Refusal
        ensures { result.place ≡ place }
    {
        Refusal {
            number: self as u8,
            place,
            layer: self.layer(),
        }
    }
}

// Why a second implementation stops: a refusal, or no memory.
#[derive(Clone, Copy, Debug, Error)]
pub enum Stop {
    #[error("{0}")]
    Refused(#[from] Refusal),
    #[error(transparent)]
    Memory(#[from(alloc)] AllocError),
}

// Lets `?` pass a faulty token on.
impl From<Faulty<'_>> for Stop {
    fn from(faulty: Faulty<'_>) -> Stop {
        Stop::Refused(Reason::FaultyToken.at(faulty.place))
    }
}

// What a second implementation answers, a refusal being an answer too. Want of memory is none, and ends the trial.
pub fn answered<T>(told: Result<T, Stop>) -> Result<Result<T, Refusal>, AllocError>
    ensures value { IfOk told (λ value. result ≡ Ok (Ok value)) }
    ensures refusal { IfErr told (λ stop. (refusal : RefusalOf) → stop ≡ Stop.Refused refusal → result ≡ Ok (Err refusal)) }
{
    match told {
        Ok(value) => Ok(Ok(value)),
        Err(Stop::Refused(refusal)) => Ok(Err(refusal)),
        Err(Stop::Memory(e)) => Err(e),
    }
}
