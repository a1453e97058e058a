// What the trials count: answers, and differences between them.
ghost use Rattle.std.specs.Prelude.{◌≡◌, ◌+◌, ◌-◌, ◌^◌, ◌<◌, ◌↔◌, Some, OnOk, IfErr, IsTrue, min};
ghost use Rattle.std.specs.BTreeMap.{get};
ghost use Rattle.std.specs.Option.{unwrap_or};
ghost use Rattle.std.specs.Ordering.{nat_cmp};

use layers::Refusal;
use std::alloc::{AllocError, Global};
use std::collections::BTreeMap;
use std::fmt;

#[derive(Drop)]
pub struct Tally {
    // By what is printed of them.
    accepted: BTreeMap<&'static str, u32>,
    // By the number of the refusal.
    refused: BTreeMap<u8, u32>,
    pub answers: u32,
    pub differ: u32,
}

// Counts one more of a key.
fn count_one<K: Ord + Drop>(counts: &mut BTreeMap<K, u32>, key: K) -> Result<(), AllocError>
    ensures { OnOk result (get K.cmp counts.new key ≡ Some (min (unwrap_or (get K.cmp counts.old key) 0 + 1) (2 ^ 32 - 1))) }
{
    let count = counts.entry(key)?.or_insert(0);
    *count = count.saturating_add(1);
    Ok(())
}

impl Tally {
    pub fn new(heap: Global) -> Tally
        ensures answers { result.answers ≡ 0 }
        ensures differ { result.differ ≡ 0 }
    {
        Tally {
            accepted: BTreeMap::new(heap),
            refused: BTreeMap::new(heap),
            answers: 0,
            differ: 0,
        }
    }

    // Counts an answer: how it was accepted, in print, or the refusal.
    pub fn count(&mut self, answer: Result<&'static str, Refusal>) -> Result<(), AllocError>
        ensures all { self.new.answers ≡ min (self.old.answers + 1) (2 ^ 32 - 1) }
        ensures refusal { IfErr answer.entry (λ refusal. OnOk result (get nat_cmp self.new.refused refusal.number ≡ Some (min (unwrap_or (get nat_cmp self.old.refused refusal.number) 0 + 1) (2 ^ 32 - 1)))) }
    {
        self.answers = self.answers.saturating_add(1);
        match answer {
            Ok(accepted) => count_one(&mut self.accepted, accepted),
            Err(refusal) => count_one(&mut self.refused, refusal.number),
        }
    }

    // Notes a difference, and tells whether it is to be printed: only the first few are.
    pub fn note_difference(&mut self) -> bool
        ensures count { self.new.differ ≡ min (self.old.differ + 1) (2 ^ 32 - 1) }
        ensures few { IsTrue result ↔ (self.old.differ < 5) }
    {
        self.differ = self.differ.saturating_add(1);
        self.differ <= 5
    }
}

// Prints a line for each kind of answer that came.
impl fmt::Display for Tally {
    fn fmt<W: fmt::Write>(&self, f: &mut fmt::Formatter<W>) -> fmt::Result {
        for (accepted, count) in &self.accepted {
            writeln!(f, "{accepted}: {count}")?;
        }
        for (number, count) in &self.refused {
            writeln!(f, "refused {number}: {count}")?;
        }
        Ok(())
    }
}
