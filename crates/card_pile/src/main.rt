// Puts the archive on standard input on a pile of cards, unloads the pile again, and takes apart what came back.
//
// The pile has just enough cards. An argument gives another number of them.
#![tactic(auto)]

use layers::Fault;
use records::Records;
use sinks::{Card, CardSink, Sink, cards_for, put_all};
use std::io::Read;
use std::{env, io};

// How many cards to lay out: the argument, if there is one, else just enough. None where the argument is no number.
fn card_count(rt: &HostRuntime, bytes: usize) -> io::Result<Option<usize>> {
    match env::args(rt)?.nth(1) {
        Some(arg) => Ok(arg.as_str().parse().ok()),
        None => Ok(Some(cards_for(bytes))),
    }
}

// Takes apart what came back, and prints how many records it has.
fn print_records(rt: &HostRuntime, archive: &[u8]) -> io::Result<()> {
    // Not `filter` and `count`: a count is proved only where it is bounded, and no contract bounds the number of records.
    let mut records = 0u64;
    for step in Records::new(archive) {
        match step {
            Ok(_) => records = records.saturating_add(1),
            Err(fault) => println!(rt; "{}", fault.refusal())?,
        }
    }
    println!(rt; "{records} records came apart")
}

// Unloads the pile, and says whether the same bytes came back.
fn print_unloaded(rt: &HostRuntime, pile: &CardSink<'_>, archive: &[u8]) -> io::Result<()> {
    let mut copy = vec![in rt.alloc(); 0u8; archive.len()]?;
    if let Err(fault) = pile.unload(&mut copy) {
        return println!(rt; "{}", fault.refusal());
    }
    let how = if copy.as_slice() == archive {
        "the same"
    } else {
        "different"
    };
    println!(rt; "the bytes came back {how}")?;
    print_records(rt, &copy)
}

fn main(rt: HostRuntime) -> io::Result<()> {
    let mut archive = Vec::new(rt.alloc());
    rt.stdin().read_to_end(&mut archive)?;
    let Some(count) = card_count(&rt, archive.len())? else {
        return println!(rt; "the argument is no number of cards");
    };
    let mut cards = vec![in rt.alloc(); Card::BLANK; count]?;
    let mut pile = CardSink::new(&mut cards);
    if put_all(&mut pile, &archive).is_err() {
        let space = pile.space();
        let bytes = archive.len();
        return println!(rt;
            "the pile is full: {count} cards have space for {space} bytes, and the archive has {bytes}"
        );
    }
    let bytes = pile.count();
    println!(rt; "{count} cards hold {bytes} bytes")?;
    print_unloaded(&rt, &pile, &archive)
}
