// Serves the writing calls on standard input, and prints how each was answered, the archive, and what its records give back.
//
// The first line is `page N space S sink buffer|cards`: the number of a code page, how many bytes there is space for, and
// where they go. A buffer has S bytes; of cards there are just as many as S bytes take, so the last one may have some space more.
// Then each line is a call: `open html`, `open text`, `markup HEX`, `text HEX`, `dress HEX` or `finish`. HEX is the piece, each
// byte by two digits of lower-case hexadecimal.
#![tactic(auto)]

mod calls;
mod digits;
mod script;
mod session;
mod setting;

use pages::{Ascii20127, CodePage, Windows1251, Windows1252};
use session::Session;
use setting::{Page, Place, Setting};
use sinks::{BufferSink, Card, CardSink, Sink, cards_for};
use std::io;
use std::io::{BufWriter, Read, Write};
use std::str::from_utf8;

// The most space that is laid out: 16 MiB.
const MOST_SPACE: usize = 16_777_216;

impl<'a, P: CodePage + Copy, W: Write> Session<'a, P, W> {
    // Serves the calls where the setting says. Two arms: each lays out a sink of another type.
    fn run(&mut self, setting: &Setting, calls: &str) -> io::Result<()> {
        match setting.place {
            Place::Buffer => self.run_buffer(setting.space, calls),
            Place::Cards => self.run_cards(setting.space, calls),
        }
    }

    // Serves the calls into a buffer.
    fn run_buffer(&mut self, space: usize, calls: &str) -> io::Result<()> {
        let mut room = vec![in self.heap; 0u8; space]?;
        let (sink, open) = self.serve_lines(BufferSink::new(&mut room), calls)?;
        self.print_script(sink.into_written(), open)
    }

    // Serves the calls onto cards, and unloads them.
    fn run_cards(&mut self, space: usize, calls: &str) -> io::Result<()> {
        let mut cards = vec![in self.heap; Card::BLANK; cards_for(space)]?;
        let (pile, open) = self.serve_lines(CardSink::new(&mut cards), calls)?;
        let mut archive = vec![in self.heap; 0u8; pile.count()]?;
        match pile.unload(&mut archive) {
            Ok(_) => self.print_script(&archive, open),
            Err(_) => writeln!(self.out, "the cards could not be unloaded"),
        }
    }
}

fn main(rt: HostRuntime) -> io::Result<()> {
    let mut input = Vec::new(rt.alloc());
    rt.stdin().read_to_end(&mut input)?;
    let Ok(text) = from_utf8(&input) else {
        return println!(rt; "the input is not UTF-8");
    };
    let (first, calls) = text.split_once('\n').unwrap_or((text, ""));
    let setting = match first.trim_end().parse::<Setting>() {
        Ok(setting) => setting,
        Err(e) => return println!(rt; "{e}"),
    };
    if setting.space > MOST_SPACE {
        return println!(rt; "too much space: at most {MOST_SPACE} bytes are laid out");
    }
    let mut out = BufWriter::new(rt.alloc(), rt.stdout())?;
    // Each page is a type of its own, so each has its own session.
    let heap = rt.alloc();
    match setting.page {
        Page::Windows1252 => Session::new(heap, &mut out, Windows1252).run(&setting, calls)?,
        Page::Windows1251 => Session::new(heap, &mut out, Windows1251).run(&setting, calls)?,
        Page::Ascii20127 => Session::new(heap, &mut out, Ascii20127).run(&setting, calls)?,
    }
    out.flush()
}
