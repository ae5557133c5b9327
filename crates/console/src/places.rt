// The places that a caller lends for answers.
use anyhow::ensure;
use awareness::summary::ChangeLists;
use hub::run::{Answer, Lent};
use std::alloc::Global;

// The most bytes of room, and places, that may be asked for.
const MOST: u64 = 1 << 20;

// A number of bytes or places that is asked for.
pub fn size_of(number: u64) -> anyhow::Result<usize> {
    ensure!(number <= MOST, "at most {MOST} are given");
    Ok(number as usize)
}

// Room for bytes, and places for the clients of each list.
#[derive(Drop)]
pub struct Places {
    out: Vec<u8>,
    added: Vec<u64>,
    updated: Vec<u64>,
    changed: Vec<u64>,
    removed: Vec<u64>,
}

impl Places {
    // So much room, and so many places for each list.
    pub fn new(heap: Global, room: usize, places: usize) -> anyhow::Result<Places> {
        Ok(Places {
            out: vec![in heap; 0; room]?,
            added: vec![in heap; 0; places]?,
            updated: vec![in heap; 0; places]?,
            changed: vec![in heap; 0; places]?,
            removed: vec![in heap; 0; places]?,
        })
    }

    // All of them, as a call takes them.
    pub fn parts(&mut self) -> (&mut [u8], ChangeLists<'_>) {
        let lists = ChangeLists {
            added: self.added.as_mut_slice(),
            updated: self.updated.as_mut_slice(),
            changed: self.changed.as_mut_slice(),
            removed: self.removed.as_mut_slice(),
        };
        (self.out.as_mut_slice(), lists)
    }

    // All of them, as a run takes them.
    pub fn lend(&mut self) -> Lent<'_, '_, '_, '_, '_> {
        Lent {
            out: self.out.as_mut_slice(),
            added: self.added.as_mut_slice(),
            updated: self.updated.as_mut_slice(),
            changed: self.changed.as_mut_slice(),
            removed: self.removed.as_mut_slice(),
        }
    }

    // What stands in them.
    pub fn told(&self) -> Told<'_> {
        Told {
            bytes: self.out.as_slice(),
            added: self.added.as_slice(),
            updated: self.updated.as_slice(),
            changed: self.changed.as_slice(),
            removed: self.removed.as_slice(),
        }
    }
}

// The bytes, and the clients of each list, that stand in places.
#[derive(Clone, Copy)]
pub struct Told<'a> {
    pub bytes: &'a [u8],
    pub added: &'a [u64],
    pub updated: &'a [u64],
    pub changed: &'a [u64],
    pub removed: &'a [u64],
}

impl<'a> Told<'a> {
    // Takes what belongs to an answer off the front.
    pub fn take(&mut self, answer: &Answer) -> Told<'a> {
        let clients = answer.clients();
        Told {
            bytes: take_front(&mut self.bytes, answer.bytes()),
            added: take_front(&mut self.added, clients.added),
            updated: take_front(&mut self.updated, clients.updated),
            changed: take_front(&mut self.changed, clients.changed),
            removed: take_front(&mut self.removed, clients.removed),
        }
    }
}

// Takes so many off the front of a list, or all where there are fewer.
fn take_front<'a, T>(list: &mut &'a [T], len: usize) -> &'a [T] {
    let (front, rest) = list.split_at(len.min(list.len()));
    *list = rest;
    front
}
