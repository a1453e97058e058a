// What a call adds to a record: how long it is there, and the putting of it.
ghost use Rattle.std.specs.Prelude.{◌≡◌, ◌+◌, ◌≤◌, ◌++◌, length};
ghost use Rattle.std.specs.Str.{chars};
ghost use Rattle.writer.specs.Pieces.{typed as typed_of, at_most};
ghost use Rattle.writer.specs.Spelling.{spelled_all};
ghost use Rattle.writer.specs.Shown.{shown_text, shown_piece};

use crate::faults::WriterFault;
use crate::keys::Keys;
use crate::spelling::spelled;
use pages::CodePage;
use sinks::{Sink, put_all};
use std::str::from_utf8;

// What stands around a piece.
#[derive(Clone, Copy)]
pub struct Frame {
    pub front: &'static [u8],
    pub back: &'static [u8],
}

// A piece that may be put.
#[derive(Clone, Copy)]
pub enum Piece<'a> {
    // Text, which is spelled key by key.
    Typed(&'a str),
    // Decoration, which is put as it is.
    Decoration(&'a [u8]),
}

impl<'a> Piece<'a> {
    // How many bytes the piece has in a record, or none where they are more than `most`.
    pub fn length<P: CodePage>(self, page: &P, most: usize) -> Option<usize>
        requires { most ≤ 32768 }
        ensures { result ≡ at_most most (length (shown_piece (P.CodePage.encoded page.now) self.entry)) }
    {
        match self {
            Piece::Typed(text) => spelled_length(page, text, most),
            Piece::Decoration(bytes) => Some(bytes.len()).filter(|length| *length <= most),
        }
    }

    // Puts the piece into a sink that has space for it.
    pub fn put<P: CodePage, S: Sink>(self, page: &P, sink: &mut S)
        requires { length (shown_piece (P.CodePage.encoded page.now) self) ≤ S.Sink.space sink.old }
        ensures held { S.Sink.held sink.new ≡ S.Sink.held sink.old ++ shown_piece (P.CodePage.encoded page.now) self.entry }
        ensures space { S.Sink.space sink.new + length (shown_piece (P.CodePage.encoded page.now) self.entry) ≡ S.Sink.space sink.old }
    {
        match self {
            Piece::Typed(text) => put_text(page, text, sink),
            Piece::Decoration(bytes) => put_fitting(sink, bytes),
        }
    }
}

// The text of a piece, or the first byte that starts no UTF-8 sequence.
pub fn typed<'a>(piece: &'a [u8]) -> Result<&'a str, WriterFault>
    ensures { shown_text result ≡ typed_of piece.now }
{
    from_utf8(piece).map_err(|e| WriterFault::NotUtf8(e.valid_up_to()))
}

// How many bytes a text has when it is spelled, or none where they are more than `most`.
fn spelled_length<P: CodePage>(page: &P, text: &str, most: usize) -> Option<usize>
    requires { most ≤ 32768 }
    ensures { result ≡ at_most most (length (spelled_all (P.CodePage.encoded page.now) (chars text.now))) }
{
    let mut total = 0;
    for key in Keys::new(text) {
        total += spelled(page, key).len();
        if total > most {
            return None;
        }
    }
    Some(total)
}

// Puts a text as it is spelled.
fn put_text<P: CodePage, S: Sink>(page: &P, text: &str, sink: &mut S)
    requires { length (spelled_all (P.CodePage.encoded page.now) (chars text.now)) ≤ S.Sink.space sink.old }
    ensures held { S.Sink.held sink.new ≡ S.Sink.held sink.old ++ spelled_all (P.CodePage.encoded page.now) (chars text.now) }
    ensures space { S.Sink.space sink.new + length (spelled_all (P.CodePage.encoded page.now) (chars text.now)) ≡ S.Sink.space sink.old }
{
    for key in Keys::new(text) {
        put_fitting(sink, &spelled(page, key));
    }
}

// Puts bytes for which the sink has space.
pub fn put_fitting<S: Sink>(sink: &mut S, bytes: &[u8])
    requires { length bytes.now ≤ S.Sink.space sink.old }
    ensures held { S.Sink.held sink.new ≡ S.Sink.held sink.old ++ bytes.now }
    ensures space { S.Sink.space sink.new + length bytes.now ≡ S.Sink.space sink.old }
{
    let _ = put_all(sink, bytes);
}
