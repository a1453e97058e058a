// Tries the reading of records against a second reading, written another way, on records that are made up.
#![tactic(auto)]

mod compose;
mod fragments;
mod generate;
mod scan;
mod second;
mod signs;

use layers::{Fault, Refusal};
use pages::{Ascii20127, CodePage, Windows1251, Windows1252};
use reader::{Reading, read};
use records::Kind;
use second::{Outcome, Script, expect, read_script};
use std::io;
use trials::{Dice, Page, Tally, answered};

// How many short records are made for each page.
const SHORT: usize = 7_500;

// The most bytes that reading takes.
const MOST: usize = 32_768;

// A trial of reading in one page.
#[derive(Drop)]
struct Trial<'a, R, P: CodePage> {
    rt: &'a R,
    dice: &'a mut Dice,
    tally: &'a mut Tally,
    page: &'a P,
    spread: Page,
}

impl<'a, R: Print + AllocGlobal, P: CodePage> Trial<'a, R, P> {
    fn new(
        rt: &'a R,
        dice: &'a mut Dice,
        tally: &'a mut Tally,
        page: &'a P,
    ) -> io::Result<Trial<'a, R, P>> {
        let spread = Page::spread(rt.alloc(), page)?;
        Ok(Trial {
            rt,
            dice,
            tally,
            page,
            spread,
        })
    }

    // Tries short records, and records about as long as one may be.
    fn run(&mut self) -> io::Result<()> {
        for _ in 0..SHORT {
            self.try_record(None)?;
        }
        for length in MOST - 7..MOST + 5 {
            self.try_record(Some(length))?;
        }
        Ok(())
    }

    // Tries one record: with ample room first, and then with another, whose answer counts.
    fn try_record(&mut self, length: Option<usize>) -> io::Result<()> {
        let heap = self.rt.alloc();
        let bytes = generate::record(heap, self.dice, &self.spread, length)?;
        let script = answered(read_script(heap, &bytes, &self.spread))?;
        let content = match &script {
            Ok(script) => script.content.len(),
            Err(_) => self.dice.below(bytes.len()),
        };
        let _ = self.compare(&bytes, &script, content.saturating_add(64))?;
        let room = self.room_for(content);
        let answer = self.compare(&bytes, &script, room)?;
        self.tally.count(answer.map(|reading| match reading.kind {
            Kind::Html => "accepted as html",
            Kind::Text => "accepted as text",
        }))?;
        Ok(())
    }

    // Room for a content of some length: for it just so, for less, or for more.
    fn room_for(&mut self, content: usize) -> usize {
        match self.dice.below(12) {
            0..=4 => content,
            5 => content.saturating_sub(1),
            6 => self.dice.below(content),
            7 => 0,
            8 => content.saturating_add(1),
            _ => content.saturating_add(self.dice.below(400)),
        }
    }

    // Reads in both ways into a buffer that was not empty before, notes whether the two differ, and gives the answer.
    fn compare(
        &mut self,
        bytes: &[u8],
        script: &Result<Script, Refusal>,
        room: usize,
    ) -> io::Result<Result<Reading, Refusal>> {
        let heap = self.rt.alloc();
        let expected = expect(heap, script, room)?;
        let mut buffer = vec![in heap; 0xAAu8; room]?;
        let answer = read(bytes, self.page, &mut buffer).map_err(|fault| fault.refusal());
        let done = Outcome { answer, buffer };
        if done != expected && self.tally.note_difference() {
            let record = hex::encode(heap, bytes)?;
            let number = self.page.number();
            let same = done.buffer == expected.buffer;
            println!(self.rt; "record {record}")?;
            println!(self.rt; "in page {number} into {room} bytes")?;
            println!(self.rt; "read: {done}")?;
            println!(self.rt; "expected: {expected}")?;
            println!(self.rt; "the same buffer: {same}")?;
        }
        Ok(answer)
    }
}

fn main(rt: HostRuntime) -> io::Result<()> {
    let mut dice = Dice::new(20_240_607);
    let mut tally = Tally::new(rt.alloc());
    Trial::new(&rt, &mut dice, &mut tally, &Windows1252)?.run()?;
    Trial::new(&rt, &mut dice, &mut tally, &Windows1251)?.run()?;
    Trial::new(&rt, &mut dice, &mut tally, &Ascii20127)?.run()?;
    let records = tally.answers;
    let differ = tally.differ;
    println!(rt; "{records} records\n{tally}{differ} differ")
}
