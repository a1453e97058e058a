// What the sittings came to, counted and printed.
use std::alloc::Global;
use std::fmt;

#[derive(Drop)]
pub struct Tally {
    pub sittings: u32,
    pub calls: trials::Tally,
    // Records that were read back.
    pub records: u32,
}

impl Tally {
    pub fn new(heap: Global) -> Tally {
        Tally {
            sittings: 0,
            calls: trials::Tally::new(heap),
            records: 0,
        }
    }
}

impl fmt::Display for Tally {
    fn fmt<W: fmt::Write>(&self, f: &mut fmt::Formatter<W>) -> fmt::Result {
        let sittings = self.sittings;
        let calls = self.calls.answers;
        let answers = &self.calls;
        let records = self.records;
        let differ = self.calls.differ;
        writeln!(f, "{sittings} sittings, {calls} calls")?;
        write!(f, "{answers}")?;
        writeln!(f, "{records} records were read back")?;
        write!(f, "{differ} differ")
    }
}
