// Tries the code pages against a list of mappings that another converter made: `tools/page_mappings` prints it.
#![tactic(auto)]

mod listed;
mod mapping;
mod trial;

use listed::Listed;
use mapping::NoMapping;
use pages::{Ascii20127, CodePage, Windows1251, Windows1252};
use std::io;
use std::io::{BufRead, BufReader};
use trial::Tally;

// Reads the list, and says of each line that is no mapping that it cannot be read.
fn read_list(rt: &HostRuntime) -> io::Result<Listed> {
    let heap = rt.alloc();
    let mut list = Listed::new(heap);
    for line in BufReader::new(heap, rt.stdin())?.lines(heap) {
        let line = line?;
        match line.as_str().parse() {
            Ok(mapping) => list.add(mapping)?,
            Err(NoMapping) => println!(rt; "this line cannot be read: {line}")?,
        }
    }
    Ok(list)
}

// Tries a page, and prints what came of it.
fn report<P: CodePage>(rt: &HostRuntime, page: &P, list: &Listed) -> io::Result<()> {
    let number = page.number();
    let Tally {
        have: bytes,
        differ: wrong_bytes,
    } = trial::decode_all(page, list);
    let Tally {
        have: characters,
        differ: wrong_characters,
    } = trial::encode_all(page, list);
    let differ = wrong_bytes + wrong_characters;
    println!(rt;
        "{number}: {bytes} bytes have a character, {characters} characters below U+3000 have a byte, {differ} differ from the list"
    )
}

fn main(rt: HostRuntime) -> io::Result<()> {
    let list = read_list(&rt)?;
    report(&rt, &Windows1252, &list)?;
    report(&rt, &Windows1251, &list)?;
    report(&rt, &Ascii20127, &list)
}
