// Calls as values, and their serving.
ghost use Rattle.std.specs.Prelude.{◌≡◌, min, ◌++◌, map, length, take, drop};
ghost use Rattle.writer.specs.Writers.{moment_of, Serves};
ghost use Rattle.sittings.specs.Calls.{asked, answers, left as left_after};
ghost use Rattle.sittings.specs.Truth.{NeverLies};

use pages::CodePage;
use records::Kind;
use sinks::Sink;
use writer::{Writer, WriterFault};

// A writing call, with what it is given.
#[derive(Clone, Copy)]
pub enum Call<'a> {
    Open(Kind),
    Markup(&'a [u8]),
    Text(&'a [u8]),
    Dress(&'a [u8]),
    Finish,
}

// Makes one call.
pub fn make<P: CodePage, S: Sink>(
    writer: &mut Writer<P, S>,
    call: Call<'_>,
) -> Result<usize, WriterFault>
    ensures { Serves P.CodePage.number P.CodePage.encoded S.Sink.held S.Sink.space (asked call.entry) writer.old result writer.new }
{
    match call {
        Call::Open(kind) => writer.open(kind),
        Call::Markup(piece) => writer.markup(piece),
        Call::Text(piece) => writer.text(piece),
        Call::Dress(decoration) => writer.dress(decoration),
        Call::Finish => writer.finish(),
    }
}

// Makes calls one after the other, as many as there are places for answers, and tells how many were made. Whatever calls a writer
// served since it was new, on an empty sink, the archive does not lie.
pub fn serve<P: CodePage, S: Sink>(
    writer: &mut Writer<P, S>,
    calls: &[Call<'_>],
    told: &mut [Result<usize, WriterFault>],
) -> usize
    ensures count { result ≡ min (length calls.now) (length told.old) }
    ensures page { writer.new.page ≡ writer.old.page }
    ensures told { told.new ≡ answers (P.CodePage.number writer.old.page) (P.CodePage.encoded writer.old.page) (moment_of S.Sink.held S.Sink.space writer.old) (map asked (take result calls.now)) ++ drop result told.old }
    ensures left { moment_of S.Sink.held S.Sink.space writer.new ≡ left_after (P.CodePage.number writer.old.page) (P.CodePage.encoded writer.old.page) (moment_of S.Sink.held S.Sink.space writer.old) (map asked (take result calls.now)) }
    ensures truth { NeverLies (P.CodePage.number writer.old.page) (P.CodePage.decoded writer.old.page) (P.CodePage.encoded writer.old.page) }
{
    let count = calls.len().min(told.len());
    // Not `told.iter_mut().zip(calls)`: of what is written through a zip no proof learns anything.
    for (at, call) in calls[..count].iter().enumerate() {
        told[at] = make(writer, *call);
    }
    count
}
