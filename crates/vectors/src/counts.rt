// How many calls there were, and what came of them.
use std::alloc::{AllocError, Global};
use std::collections::BTreeMap;
use std::fmt;

// How often each name was seen.
#[derive(Drop)]
pub struct Seen {
    heap: Global,
    names: BTreeMap<String, u64>,
}

impl Seen {
    // No name yet.
    fn new(heap: Global) -> Seen {
        Seen {
            heap,
            names: BTreeMap::new(heap),
        }
    }

    // A name, once more.
    pub fn add(&mut self, name: &str) -> Result<(), AllocError> {
        match self.names.get_mut(name) {
            Some(count) => *count = count.saturating_add(1),
            None => {
                let name = String::from_str(self.heap, name)?;
                self.names.insert(name, 1)?;
            }
        }
        Ok(())
    }

    // How often any was seen.
    pub fn total(&self) -> u64 {
        self.names
            .values()
            .fold(0u64, |sum, n| sum.saturating_add(*n))
    }
}

// What was seen of a file of cases.
#[derive(Drop)]
pub struct Counts {
    // calls, by their first word
    pub calls: Seen,
    // answers that were compared and are no refusals
    pub accepted: u64,
    // refusals that were compared, by their number
    pub refused: BTreeMap<u8, u64>,
    // answers with lists in which the rule has clients that the Rust leaves out, by the kind of difference
    pub by_rule: Seen,
    // answers that were not compared, by the kind of difference
    pub outside: Seen,
}

impl Counts {
    // Nothing seen yet.
    pub fn new(heap: Global) -> Counts {
        Counts {
            calls: Seen::new(heap),
            accepted: 0,
            refused: BTreeMap::new(heap),
            by_rule: Seen::new(heap),
            outside: Seen::new(heap),
        }
    }

    // An answer that was compared.
    pub fn add_compared(&mut self, refused: Option<u8>) -> Result<(), AllocError> {
        match refused {
            None => self.accepted = self.accepted.saturating_add(1),
            Some(number) => {
                let count = self.refused.entry(number)?.or_insert(0);
                *count = count.saturating_add(1);
            }
        }
        Ok(())
    }

    // How many answers were compared.
    fn compared(&self) -> u64 {
        let refused = self.refused.values();
        refused.fold(self.accepted, |sum, n| sum.saturating_add(*n))
    }
}

impl fmt::Display for Counts {
    // The calls, what became of those that were compared, and why others were not.
    fn fmt<W: fmt::Write>(&self, f: &mut fmt::Formatter<W>) -> fmt::Result {
        writeln!(f, "{} calls", self.calls.total())?;
        for (name, count) in &self.calls.names {
            writeln!(f, "    {name}: {count}")?;
        }
        writeln!(f, "{} answers compared, none differs", self.compared())?;
        writeln!(f, "    accepted: {}", self.accepted)?;
        for (number, count) in &self.refused {
            writeln!(f, "    refused with {number}: {count}")?;
        }
        for (kind, count) in &self.by_rule.names {
            writeln!(f, "    a list by the rule, {kind}: {count}")?;
        }
        writeln!(f, "{} answers not compared", self.outside.total())?;
        for (kind, count) in &self.outside.names {
            writeln!(f, "    {kind}: {count}")?;
        }
        Ok(())
    }
}
