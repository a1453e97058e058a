// Which call the writer's state takes: a record of a kind is open, or none is.
ghost use Rattle.std.specs.Prelude.{◌≡◌};
ghost use Rattle.writer.specs.States.{allowed as allowed_of};

use crate::faults::WriterFault;
use records::Kind;

// The five writing calls.
#[derive(Clone, Copy, PartialEq, Eq, Debug)]
pub enum CallKind {
    Open,
    Markup,
    Text,
    Dress,
    Finish,
}

// What is open and the call together decide.
pub fn allowed(state: Option<Kind>, call: CallKind) -> Result<(), WriterFault>
    ensures { result ≡ allowed_of state call }
{
    match (state, call) {
        (None, CallKind::Open) => Ok(()),
        (None, _) => Err(WriterFault::NoneOpen),
        (Some(_), CallKind::Open) => Err(WriterFault::AlreadyOpen),
        (Some(Kind::Text), CallKind::Markup | CallKind::Dress) => Err(WriterFault::TextOpen),
        (Some(Kind::Html), CallKind::Markup | CallKind::Dress) => Ok(()),
        (Some(_), CallKind::Text | CallKind::Finish) => Ok(()),
    }
}
