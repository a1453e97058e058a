// A second writing, for comparison: an archive that grows, with nothing counted but its bytes.
use crate::decoration;
use crate::generate::{Call, Outlook};
use crate::spell::spell;
use crate::utf8::decode;
use layers::Refusal;
use records::Kind;
use std::alloc::{AllocError, Global};
use trials::{Page, Reason, Stop, answered};

// What was typed into a record: its kind, and the pieces joined.
#[derive(Drop)]
pub struct Script {
    pub kind: Kind,
    pub content: Vec<u8>,
}

// A record that is open: where it begins, and what was typed into it so far.
#[derive(Drop)]
struct Opened {
    begins: usize,
    script: Script,
}

#[derive(Drop)]
pub struct Second<'a> {
    heap: Global,
    page: &'a Page,
    // How many bytes the archive may have.
    room: usize,
    pub archive: Vec<u8>,
    open: Option<Opened>,
    // What was typed into the records before.
    pub scripts: Vec<Script>,
}

impl<'a> Second<'a> {
    pub fn new(heap: Global, page: &'a Page, room: usize) -> Second<'a> {
        Second {
            heap,
            page,
            room,
            archive: Vec::new(heap),
            open: None,
            scripts: Vec::new(heap),
        }
    }

    // The kind of the open record.
    pub fn open(&self) -> Option<Kind> {
        self.open.as_ref().map(|opened| opened.script.kind)
    }

    // How many bytes more the archive may have.
    pub fn space(&self) -> usize {
        self.room.saturating_sub(self.archive.len())
    }

    // How many bytes more the record may have.
    fn rest(&self) -> usize {
        let size = match &self.open {
            Some(opened) => self.archive.len().saturating_sub(opened.begins),
            None => 0,
        };
        32_767usize.saturating_sub(size)
    }

    pub fn outlook(&self, long: bool) -> Outlook {
        Outlook {
            open: self.open(),
            fits: self.rest().min(self.space().saturating_sub(1)),
            long,
        }
    }

    // Serves a call, and tells how many bytes it put.
    pub fn serve(&mut self, call: &Call) -> Result<Result<usize, Refusal>, AllocError> {
        match answered(self.bytes_of(call))? {
            Ok(bytes) => {
                self.keep(call)?;
                self.archive.extend_from_slice(&bytes)?;
                Ok(Ok(bytes.len()))
            }
            Err(refusal) => Ok(Err(refusal)),
        }
    }

    // The bytes that a call puts, or why it is refused.
    fn bytes_of(&self, call: &Call) -> Result<Vec<u8>, Stop> {
        self.check_state(call)?;
        let bytes = match call {
            Call::Open(kind) => self.header(*kind)?,
            Call::Markup(piece) => {
                self.framed("{\\*\\htmltag ", self.spelled(piece)?.as_bytes(), "}")?
            }
            Call::Text(piece) => self.framed("", self.spelled(piece)?.as_bytes(), "")?,
            Call::Dress(piece) => {
                decoration::check(self.heap, piece)?;
                self.framed("\\htmlrtf ", piece, "\\htmlrtf0 ")?
            }
            Call::Finish => self.framed("", b"", "}")?,
        };
        self.check_room(call, bytes.len())?;
        Ok(bytes)
    }

    fn check_state(&self, call: &Call) -> Result<(), Refusal> {
        match (call, self.open()) {
            (Call::Open(_), Some(_)) => Err(Reason::AlreadyOpen.at(0)),
            (Call::Open(_), None) => Ok(()),
            (_, None) => Err(Reason::NoneOpen.at(0)),
            (Call::Markup(_) | Call::Dress(_), Some(Kind::Text)) => { Err(Reason::TextOpen.at(0)) }
            _ => Ok(()),
        }
    }

    // A record never lacks the byte of its brace.
    fn check_room(&self, call: &Call, count: usize) -> Result<(), Refusal> {
        match call {
            Call::Finish => Ok(()),
            _ if count > self.rest() => Err(Reason::TooLongToWrite.at(0)),
            _ if count >= self.space() => Err(Reason::NoSpace.at(0)),
            _ => Ok(()),
        }
    }

    fn header(&self, kind: Kind) -> Result<Vec<u8>, AllocError> {
        let number = self.page.number;
        let (mark, start) = match kind {
            Kind::Html => ("fromhtml1", "{\\*\\htmltag64}"),
            Kind::Text => ("fromtext", " "),
        };
        let text = format!(in self.heap;
            "{{\\rtf1\\ansi\\ansicpg{number}\\{mark}\\deff0{{\\fonttbl{{\\f0\\fswiss Arial;}}}}\\uc1\\pard\\plain\\f0{start}"
        )?;
        text.as_bytes().to_vec(self.heap)
    }

    fn spelled(&self, piece: &[u8]) -> Result<String, Stop> {
        let text = decode(self.heap, piece)?;
        Ok(spell(self.heap, &text, self.page)?)
    }

    fn framed(&self, front: &str, inner: &[u8], back: &str) -> Result<Vec<u8>, AllocError> {
        [front.as_bytes(), inner, back.as_bytes()].concat(self.heap)
    }

    // Keeps what was typed, and what is open.
    fn keep(&mut self, call: &Call) -> Result<(), AllocError> {
        match call {
            Call::Open(kind) => {
                let script = Script {
                    kind: *kind,
                    content: Vec::new(self.heap),
                };
                self.open = Some(Opened {
                    begins: self.archive.len(),
                    script,
                });
                Ok(())
            }
            Call::Markup(piece) | Call::Text(piece) => match &mut self.open {
                Some(opened) => opened.script.content.extend_from_slice(piece),
                None => Ok(()),
            },
            Call::Dress(_) => Ok(()),
            Call::Finish => self.close(),
        }
    }

    // Puts the open record, if there is one, with the others.
    pub fn close(&mut self) -> Result<(), AllocError> {
        if let Some(opened) = self.open.take() {
            self.scripts.push(opened.script)?;
        }
        Ok(())
    }
}
