// The writer, and its calls.
ghost use Rattle.std.specs.Prelude.{◌≡◌, ◌+◌, ◌≤◌, length, OnOk, OnErr};
ghost use Rattle.writer.specs.Calls.{room as room_of, begin, markup as markup_ask, text as text_ask, dress as dress_ask, finish as finish_ask, added};
ghost use Rattle.writer.specs.Shown.{shown_piece};
ghost use Rattle.writer.specs.Writers.{moment_of, begun, measured, framed, Serves};

use crate::decoration::check_decoration;
use crate::faults::WriterFault;
use crate::header::header;
use crate::piece::{Frame, Piece, put_fitting, typed};
use crate::state::{CallKind, allowed};
use pages::CodePage;
use records::Kind;
use sinks::Sink;

// The most bytes that a record has: no more than reading takes.
const MAX_RECORD: usize = 32_768;

// Markup stands in a tag group, text as it is, and decoration between the words that keep it from the content.
const MARKUP: Frame = Frame {
    front: b"{\\*\\htmltag ",
    back: b"}",
};

const TEXT: Frame = Frame {
    front: b"",
    back: b"",
};

const DRESS: Frame = Frame {
    front: b"\\htmlrtf ",
    back: b"\\htmlrtf0 ",
};

// A writer with its code page and its sink. Its callers need these themselves, so contracts name the fields and the meanings of
// both; a model would show all of them again.
#[derive(Drop)]
pub struct Writer<P: CodePage, S: Sink> {
    page: P,
    sink: S,
    // The kind of the open record, if one is open.
    state: Option<Kind>,
    // How many bytes the open record has, or 0. It stands beside the kind: an option of both would be taken apart again after
    // each check of the state.
    size: usize,
}

impl<P: CodePage, S: Sink> Writer<P, S> {
    // A writer with no record open.
    pub fn new(page: P, sink: S) -> Self
        ensures page { result.page ≡ page }
        ensures sink { result.sink ≡ sink }
        ensures begins { moment_of S.Sink.held S.Sink.space result ≡ begun (S.Sink.held sink) (S.Sink.space sink) }
    {
        Writer {
            page,
            sink,
            state: None,
            size: 0,
        }
    }

    // What is open.
    pub fn state(&self) -> Option<Kind>
        ensures { result ≡ self.now.state }
    {
        self.state
    }

    // The sink, for who asks how much it holds or has space for.
    pub fn sink(&self) -> &S
        ensures { result.now ≡ self.now.sink }
    {
        &self.sink
    }

    // Lets the page go, and gives the sink back.
    pub fn into_sink(self) -> S
    where
        P: Drop,
        ensures { result ≡ self.sink }
    {
        let Writer { sink, .. } = self;
        sink
    }

    // Begins a record of a kind, and tells how many bytes more the sink holds.
    pub fn open(&mut self, kind: Kind) -> Result<usize, WriterFault>
        ensures { Serves P.CodePage.number P.CodePage.encoded S.Sink.held S.Sink.space (begin kind) self.old result self.new }
    {
        allowed(self.state, CallKind::Open)?;
        let header = header(self.page.number(), kind);
        self.check_room(0, header.len())?;
        put_fitting(&mut self.sink, &header);
        self.state = Some(kind);
        self.size = header.len();
        Ok(self.size)
    }

    // Adds a piece of markup to the open record.
    pub fn markup(&mut self, piece: &[u8]) -> Result<usize, WriterFault>
        ensures { Serves P.CodePage.number P.CodePage.encoded S.Sink.held S.Sink.space (markup_ask piece.now) self.old result self.new }
    {
        allowed(self.state, CallKind::Markup)?;
        self.add(MARKUP, Piece::Typed(typed(piece)?))
    }

    // Adds a piece of text to the open record.
    pub fn text(&mut self, piece: &[u8]) -> Result<usize, WriterFault>
        ensures { Serves P.CodePage.number P.CodePage.encoded S.Sink.held S.Sink.space (text_ask piece.now) self.old result self.new }
    {
        allowed(self.state, CallKind::Text)?;
        self.add(TEXT, Piece::Typed(typed(piece)?))
    }

    // Adds decoration to the open record: what other readers show, and reading passes over.
    pub fn dress(&mut self, decoration: &[u8]) -> Result<usize, WriterFault>
        ensures { Serves P.CodePage.number P.CodePage.encoded S.Sink.held S.Sink.space (dress_ask decoration.now) self.old result self.new }
    {
        allowed(self.state, CallKind::Dress)?;
        check_decoration(decoration)?;
        self.add(DRESS, Piece::Decoration(decoration))
    }

    // Ends the open record. The byte for its brace has been kept.
    pub fn finish(&mut self) -> Result<usize, WriterFault>
        ensures { Serves P.CodePage.number P.CodePage.encoded S.Sink.held S.Sink.space finish_ask self.old result self.new }
    {
        allowed(self.state, CallKind::Finish)?;
        if self.sink.space() == 0 {
            return Err(WriterFault::NoSpace);
        }
        put_fitting(&mut self.sink, b"}");
        self.state = None;
        self.size = 0;
        Ok(1)
    }

    // Adds a piece in its frame to the open record, if there is room for them.
    fn add(&mut self, frame: Frame, piece: Piece<'_>) -> Result<usize, WriterFault>
        requires { length frame.front.now + length frame.back.now ≤ 32768 }
        ensures tells { result ≡ measured self.old.size (S.Sink.space self.old.sink) (length (framed frame (shown_piece (P.CodePage.encoded self.old.page) piece.entry))) }
        ensures leaves { OnOk result (moment_of S.Sink.held S.Sink.space self.new ≡ added (moment_of S.Sink.held S.Sink.space self.old) (framed frame (shown_piece (P.CodePage.encoded self.old.page) piece.entry))) }
        ensures page { self.new.page ≡ self.old.page }
        ensures untouched { OnErr result (self.new ≡ self.old) }
    {
        let length = piece
            .length(&self.page, MAX_RECORD)
            .ok_or(WriterFault::TooLong)?;
        let count = frame.front.len() + length + frame.back.len();
        self.check_room(self.size, count)?;
        put_fitting(&mut self.sink, frame.front);
        piece.put(&self.page, &mut self.sink);
        put_fitting(&mut self.sink, frame.back);
        self.size += count;
        Ok(count)
    }

    // Whether so many bytes more, and the closing brace, are not too many for a record of a size and for the sink.
    fn check_room(&self, size: usize, count: usize) -> Result<(), WriterFault>
        ensures { result ≡ room_of size (S.Sink.space self.now.sink) count }
    {
        if size.saturating_add(count).saturating_add(1) > MAX_RECORD {
            return Err(WriterFault::TooLong);
        }
        if self.sink.space() <= count {
            return Err(WriterFault::NoSpace);
        }
        Ok(())
    }
}
