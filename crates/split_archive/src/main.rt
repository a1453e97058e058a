// Takes the archive on standard input apart, and prints a line for each record.
#![tactic(auto)]

use layers::Fault;
use records::{Part, Records};
use std::io;
use std::io::{BufWriter, Read, Write};

// What has come apart so far.
#[derive(Clone, Copy, Default)]
struct Tally {
    records: u64,
    bytes: u64,
}

impl Tally {
    fn count(&mut self, record: &Part<'_>) {
        // Not `count()`: it asks for a bound, and no contract bounds how many records an archive has.
        self.records = self.records.saturating_add(1);
        self.bytes = self.bytes.saturating_add(record.bytes.len() as u64);
    }
}

fn print_record<W: Write>(out: &mut W, number: u64, record: &Part<'_>) -> io::Result<()> {
    let place = record.place;
    let length = record.bytes.len();
    writeln!(out, "record {number} at {place} length {length}")
}

fn print_records<W: Write>(out: &mut W, archive: &[u8]) -> io::Result<()> {
    let mut tally = Tally::default();
    for step in Records::new(archive) {
        match step {
            Ok(record) => {
                tally.count(&record);
                print_record(out, tally.records, &record)?;
            }
            Err(fault) => writeln!(out, "{}", fault.refusal())?,
        }
    }
    let records = tally.records;
    let bytes = tally.bytes;
    writeln!(out, "{records} records, {bytes} bytes")
}

fn main(rt: HostRuntime) -> io::Result<()> {
    let mut archive = Vec::new(rt.alloc());
    rt.stdin().read_to_end(&mut archive)?;
    let mut out = BufWriter::new(rt.alloc(), rt.stdout())?;
    print_records(&mut out, &archive)?;
    out.flush()
}
