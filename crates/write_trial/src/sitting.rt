// Sittings: calls that are served in both ways, and compared.
use crate::generate::next_call;
use crate::second::{Script, Second};
use crate::tally::Tally;
use layers::{Fault, Refusal};
use pages::CodePage;
use reader::read;
use records::Records;
use sinks::{BufferSink, CARD_SIZE, Card, CardSink, Sink, cards_for};
use sittings::make;
use std::alloc::{AllocError, Global};
use std::{fmt, io};
use trials::{Dice, Page};
use writer::Writer;

// Room for the content of any record: three bytes for each that reading takes.
const ROOM: usize = 98_304;

#[derive(Clone, Copy)]
pub struct Plan {
    pub space: usize,
    pub calls: usize,
    pub long: bool,
}

impl Plan {
    // A few calls, with little space or more than enough.
    pub fn short(dice: &mut Dice) -> Plan {
        let space = match dice.below(12) {
            0 => dice.below(110),
            1..=3 => dice.below(300) + 80,
            4..=6 => dice.below(1_000) + 80,
            _ => dice.below(8_000) + 80,
        };
        Plan {
            space,
            calls: dice.below(24),
            long: false,
        }
    }

    // Many calls with long pieces.
    pub fn long(dice: &mut Dice) -> Plan {
        Plan {
            space: dice.below(70_000) + 30_000,
            calls: dice.below(40) + 20,
            long: true,
        }
    }
}

// An answer in print.
#[derive(Clone, Copy)]
struct Answer(Result<usize, Refusal>);

impl fmt::Display for Answer {
    fn fmt<W: fmt::Write>(&self, f: &mut fmt::Formatter<W>) -> fmt::Result {
        match self.0 {
            Ok(count) => write!(f, "accepted {count}"),
            Err(refusal) => write!(f, "{refusal}"),
        }
    }
}

// Whether both have come to the same: what is open, how much is held, and how much space is left.
fn is_level<P: CodePage, S: Sink>(writer: &Writer<P, S>, second: &Second<'_>) -> bool {
    let sink = writer.sink();
    writer.state() == second.open()
        && sink.count() == second.archive.len()
        && sink.space() == second.space()
}

// How many records at the front of the archive are read as the scripts.
fn count_read<P: CodePage>(
    heap: Global,
    page: &P,
    archive: &[u8],
    scripts: &[Script],
) -> Result<usize, AllocError> {
    let mut content = vec![in heap; 0u8; ROOM]?;
    let read = Records::new(archive).zip(scripts).take_while(|(step, script)| match step {
        Ok(record) => is_read(record.bytes, page, script, &mut content),
        Err(_) => false,
    });
    Ok(read.count())
}

// Whether a record is read as what was typed into it.
fn is_read<P: CodePage>(bytes: &[u8], page: &P, script: &Script, content: &mut [u8]) -> bool {
    match read(bytes, page, content) {
        Ok(reading) => {
            let told = content.get(..reading.length).unwrap_or(&[]);
            reading.kind == script.kind && told == script.content.as_slice()
        }
        Err(_) => false,
    }
}

// A trial of writing in one page.
#[derive(Drop)]
pub struct Trial<'a, R, P: CodePage + Copy> {
    pub rt: &'a R,
    pub dice: &'a mut Dice,
    pub tally: &'a mut Tally,
    pub page: P,
    pub spread: &'a Page,
}

impl<'a, R: Print + AllocGlobal, P: CodePage + Copy> Trial<'a, R, P> {
    // A sitting that goes into a buffer, and one that goes onto cards, of which there are as many as the space takes. Either
    // sink is emptied here, where its own type is known.
    pub fn try_plan(&mut self, plan: Plan) -> io::Result<()> {
        let heap = self.rt.alloc();
        let mut room = vec![in heap; 0xAAu8; plan.space]?;
        let (buffer, second) = self.sit(BufferSink::new(&mut room), plan.space, plan)?;
        self.compare(buffer.into_written(), second)?;
        let used = Card {
            count: 200,
            data: [7; CARD_SIZE],
        };
        let count = cards_for(plan.space);
        let mut cards = vec![in heap; used; count]?;
        let space = count.saturating_mul(CARD_SIZE);
        let (pile, second) = self.sit(CardSink::new(&mut cards), space, plan)?;
        let mut written = vec![in heap; 0u8; pile.count()]?;
        if pile.unload(&mut written).is_err() && self.tally.calls.note_difference() {
            println!(self.rt; "the cards could not be unloaded")?;
        }
        self.compare(&written, second)
    }

    // Serves each call in both ways. The space is told apart from the sink, whose own word for it is on trial too.
    fn sit<S: Sink + Drop>(
        &mut self,
        sink: S,
        space: usize,
        plan: Plan,
    ) -> io::Result<(S, Second<'a>)> {
        let heap = self.rt.alloc();
        let mut second = Second::new(heap, self.spread, space);
        let mut writer = Writer::new(self.page, sink);
        for _ in 0..plan.calls {
            let call = next_call(heap, self.dice, second.outlook(plan.long))?;
            let expected = second.serve(&call)?;
            let told = make(&mut writer, call.lent()).map_err(|fault| fault.refusal());
            self.tally.calls.count(told.map(|_| "accepted"))?;
            let same = told == expected && is_level(&writer, &second);
            if !same && self.tally.calls.note_difference() {
                let told = Answer(told);
                let expected = Answer(expected);
                println!(self.rt; "{call}")?;
                println!(self.rt; "written: {told}, expected: {expected}")?;
            }
        }
        self.tally.sittings = self.tally.sittings.saturating_add(1);
        Ok((writer.into_sink(), second))
    }

    // Compares the archives, takes the written one apart, and reads each record back. One that is open is closed for that.
    fn compare(&mut self, written: &[u8], mut second: Second<'a>) -> io::Result<()> {
        let heap = self.rt.alloc();
        let mut archive = written.to_vec(heap)?;
        if archive != second.archive && self.tally.calls.note_difference() {
            println!(self.rt; "the archives differ")?;
        }
        if second.open().is_some() {
            archive.push(b'}')?;
            second.close()?;
        }
        let count = second.scripts.len();
        let read = count_read(heap, &self.page, &archive, &second.scripts)?;
        let more = Records::new(&archive).nth(count).is_some();
        if (read != count || more) && self.tally.calls.note_difference() {
            println!(self.rt; "of {count} records only {read} are read back")?;
        }
        let read = u32::try_from(read).unwrap_or(0);
        self.tally.records = self.tally.records.saturating_add(read);
        Ok(())
    }
}
