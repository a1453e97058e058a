// Reads one record from standard input in code page 1252, and writes its content, or why it is refused.
#![tactic(auto)]

use layers::Fault;
use pages::{CodePage, Windows1252};
use reader::read;
use std::io;
use std::io::{Read, Write};

// Room for the content of any record: three bytes for each that reading takes.
const ROOM: usize = 98_304;

// One byte more than reading takes, so that a longer input is seen to be longer.
const MOST: u64 = 32_769;

fn main(rt: HostRuntime) -> io::Result<()> {
    let mut bytes = Vec::new(rt.alloc());
    rt.stdin().take(MOST).read_to_end(&mut bytes)?;
    let mut content = vec![in rt.alloc(); 0u8; ROOM]?;
    match read(&bytes, &Windows1252, &mut content) {
        Ok(reading) => {
            content.truncate(reading.length);
            rt.stdout().write_all(&content)
        }
        Err(fault) => println!(rt; "{}", fault.refusal()),
    }
}
