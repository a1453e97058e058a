// Taking an archive apart record by record.
ghost use Rattle.std.specs.Prelude.{◌≡◌};
ghost use Rattle.records.specs.Apart.{series};
ghost use Rattle.records.specs.Cursor.{to_come, Gives, steps as count_of};
ghost use Rattle.records.specs.Laws.{ComesApart, ComeBack};
ghost use Rattle.std.specs.Iterator.{at_most};

use crate::archive_fault::ArchiveFault;
use crate::parts::{Part, take_apart};
use layers::Fault;

// A cursor over an archive. It ends with the archive, or after the first refusal.
#[derive(Drop)]
pub struct Records<'a> {
    archive: &'a [u8],
    // Where the next record begins: nowhere after a refusal.
    at: Option<usize>,
}

impl<'a> Records<'a> {
    // A cursor at the archive's start. What it gives is fixed by the bytes alone.
    pub fn new(archive: &'a [u8]) -> Self
        ensures value { to_come result ≡ series 0 0 archive.now }
        ensures apart { ComesApart 0 archive.now (series 0 0 archive.now) }
        ensures back { ComeBack archive.now }
    {
        Records {
            archive,
            at: Some(0),
        }
    }
}

// Gives the next record with its place in the archive, or the refusal that ends it.
impl<'a> Iterator for Records<'a> {
    type Item = Result<Part<'a>, ArchiveFault>;

    ghost next_gives = { λ s r t. Gives (to_come s) r (to_come t) };

    ghost remaining = { λ s. at_most (count_of (to_come s)) };

    fn next(&mut self) -> Option<Result<Part<'a>, ArchiveFault>> {
        let at = self.at?;
        if at >= self.archive.len() {
            return None;
        }
        match take_apart(&self.archive[at..]) {
            Ok((record, rest)) => {
                self.at = Some(at + rest.place);
                Some(Ok(Part {
                    bytes: record.bytes,
                    place: at,
                }))
            }
            Err(fault) => {
                self.at = None;
                let place = at + fault.place();
                Some(Err(ArchiveFault {
                    fault,
                    rest: at,
                    place,
                }))
            }
        }
    }
}
