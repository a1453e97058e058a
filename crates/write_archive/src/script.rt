// The archive, and what its records give back when they are read.
use crate::session::Session;
use hex::encode_to_slice;
use layers::Fault;
use pages::CodePage;
use reader::read;
use records::{Part, Records};
use std::io;
use std::io::Write;

// Room for the content of any record: three bytes for each that reading takes.
const ROOM: usize = 98_304;

// How many bytes are turned into digits at a time.
const CHUNK: usize = 64;

impl<'a, P: CodePage, W: Write> Session<'a, P, W> {
    // Prints the archive as it is held, and its records. A record that is open is closed for that by one brace.
    pub fn print_script(&mut self, archive: &[u8], open: bool) -> io::Result<()> {
        write!(self.out, "archive ")?;
        self.print_digits(archive)?;
        writeln!(self.out, "")?;
        let mut closed = archive.to_vec(self.heap)?;
        if open {
            closed.push(b'}')?;
        }
        let records = self.print_records(&closed, open)?;
        let bytes = archive.len();
        writeln!(self.out, "{records} records, {bytes} bytes")
    }

    // Prints each record, and tells how many there are. If one is open, it is the last.
    fn print_records(&mut self, archive: &[u8], open: bool) -> io::Result<u64> {
        let mut content = vec![in self.heap; 0u8; ROOM]?;
        let mut records = 0u64;
        for step in Records::new(archive) {
            match step {
                Ok(record) => {
                    // Not `count()`: it asks for a bound, and no contract bounds how many records an archive has.
                    records = records.saturating_add(1);
                    let last = record.place.saturating_add(record.bytes.len()) == archive.len();
                    let end = if open && last { "open" } else { "finished" };
                    self.print_record(&record, records, end, &mut content)?;
                }
                Err(fault) => self.print_refusal(&fault)?,
            }
        }
        Ok(records)
    }

    fn print_record(
        &mut self,
        record: &Part<'_>,
        number: u64,
        end: &str,
        content: &mut [u8],
    ) -> io::Result<()> {
        match read(record.bytes, &self.page, content) {
            Ok(reading) => {
                let kind = reading.kind;
                let content = content.get(..reading.length).unwrap_or(&[]);
                write!(self.out, "record {number} {kind} {end} content ")?;
                self.print_digits(content)?;
                writeln!(self.out, "")
            }
            Err(fault) => self.print_refusal(&fault),
        }
    }

    // Prints each byte by two digits. It goes by chunks, so that no memory is asked for where an archive is long.
    fn print_digits(&mut self, bytes: &[u8]) -> io::Result<()> {
        let mut room = [0u8; 2 * CHUNK];
        for chunk in bytes.chunks(CHUNK) {
            let digits = &mut room[..2 * chunk.len()];
            encode_to_slice(chunk, digits).unwrap();
            self.out.write_all(digits)?;
        }
        Ok(())
    }

    // Prints how a call or a reading was refused.
    pub fn print_refusal<F: Fault>(&mut self, fault: &F) -> io::Result<()> {
        writeln!(self.out, "{}", fault.refusal())
    }
}
