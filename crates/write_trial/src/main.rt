// Tries the writing of records against a second writing, written another way, on sittings that are made up.
#![tactic(auto)]

mod decoration;
mod fragments;
mod generate;
mod second;
mod sitting;
mod spell;
mod tally;
mod utf8;

use pages::{Ascii20127, CodePage, Windows1251, Windows1252};
use sitting::{Plan, Trial};
use std::io;
use tally::Tally;
use trials::{Dice, Page};

// How many short sittings there are for each page and each sink.
const SHORT: usize = 2_500;

// How many sittings with records about as long as one may be there are for each page and each sink.
const LONG: usize = 40;

fn try_page<P: CodePage + Copy>(
    rt: &(impl Print + AllocGlobal),
    dice: &mut Dice,
    tally: &mut Tally,
    page: P,
) -> io::Result<()> {
    let mut trial = Trial {
        rt,
        dice,
        tally,
        page,
        spread: &Page::spread(rt.alloc(), &page)?,
    };
    for _ in 0..SHORT {
        let plan = Plan::short(trial.dice);
        trial.try_plan(plan)?;
    }
    for _ in 0..LONG {
        let plan = Plan::long(trial.dice);
        trial.try_plan(plan)?;
    }
    Ok(())
}

fn main(rt: HostRuntime) -> io::Result<()> {
    let mut dice = Dice::new(20_240_815);
    let mut tally = Tally::new(rt.alloc());
    try_page(&rt, &mut dice, &mut tally, Windows1252)?;
    try_page(&rt, &mut dice, &mut tally, Windows1251)?;
    try_page(&rt, &mut dice, &mut tally, Ascii20127)?;
    println!(rt; "{tally}")
}
