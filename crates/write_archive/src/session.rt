// What each step of a run has at hand.
use pages::CodePage;
use std::alloc::Global;
use std::io::Write;

#[derive(Drop)]
pub struct Session<'a, P: CodePage, W: Write> {
    pub heap: Global,
    pub out: &'a mut W,
    pub page: P,
}

impl<'a, P: CodePage, W: Write> Session<'a, P, W> {
    pub fn new(heap: Global, out: &'a mut W, page: P) -> Self {
        Session { heap, out, page }
    }
}
