// The calls, a line each, served by any writer.
use crate::digits::parse_digits;
use crate::session::Session;
use pages::CodePage;
use records::Kind;
use sinks::Sink;
use sittings::{Call, serve};
use std::io;
use std::io::Write;
use writer::{Writer, WriterFault};

impl<'a, P: CodePage + Copy, W: Write> Session<'a, P, W> {
    // Serves each line on a sink, and prints how it was answered. Gives the sink back, and whether a record is open.
    pub fn serve_lines<S: Sink + Drop>(&mut self, sink: S, calls: &str) -> io::Result<(S, bool)> {
        let mut writer = Writer::new(self.page, sink);
        for line in calls.lines() {
            self.serve_line(&mut writer, line)?;
        }
        let open = writer.state().is_some();
        Ok((writer.into_sink(), open))
    }

    // A call that is a whole line is known before anything is parsed.
    fn serve_line<S: Sink>(&mut self, writer: &mut Writer<P, S>, line: &str) -> io::Result<()> {
        if let Some(call) = bare_call(line) {
            return self.serve_call(writer, call);
        }
        let (name, digits) = line.split_once(' ').unwrap_or((line, ""));
        let piece = parse_digits(self.heap, digits)?;
        match call_of(name, piece.as_deref()) {
            Some(call) => self.serve_call(writer, call),
            None => writeln!(self.out, "unknown call"),
        }
    }

    fn serve_call<S: Sink>(&mut self, writer: &mut Writer<P, S>, call: Call<'_>) -> io::Result<()> {
        match serve_one(writer, call) {
            Ok(count) => writeln!(self.out, "accepted {count}"),
            Err(fault) => self.print_refusal(&fault),
        }
    }
}

// The call that has no piece and is a whole line, if the line is one.
fn bare_call(line: &str) -> Option<Call<'static>> {
    match line {
        "open html" => Some(Call::Open(Kind::Html)),
        "open text" => Some(Call::Open(Kind::Text)),
        "finish" => Some(Call::Finish),
        _ => None,
    }
}

// The call of a name, or none where that names no call. `piece` is what follows the name, if those are digits.
fn call_of<'a>(name: &str, piece: Option<&'a [u8]>) -> Option<Call<'a>> {
    let piece = piece?;
    match name {
        "markup" => Some(Call::Markup(piece)),
        "text" => Some(Call::Text(piece)),
        "dress" => Some(Call::Dress(piece)),
        _ => None,
    }
}

// Serves one call, by the library's call whose contract says what holds of every sitting.
fn serve_one<P: CodePage, S: Sink>(
    writer: &mut Writer<P, S>,
    call: Call<'_>,
) -> Result<usize, WriterFault> {
    let mut told = [Ok(0)];
    let _ = serve(writer, &[call], &mut told);
    told[0]
}
