// The lists of clients that tell what an update did.
ghost use Rattle.std.specs.Prelude.{◌≡◌, ℕ, true, List, [], ◌≤◌, length, if◌then◌else◌, Ok, Err};
ghost use Rattle.awareness.specs.declared.change.Change.{Change};
ghost use Rattle.awareness.specs.Changes.{noted};
ghost use Rattle.awareness.specs.Summaries.{enough, lengths_of, over, put, seen_after, Listed};

use crate::change::Change;
use crate::observer::Observer;
use encoding::read::MAX_ENTRIES;
use encoding::sink::BufferTooShort;
use state_vector::keyed::Table;

// Clients by what happened to them, each list ascending, a client once in it.
#[derive(Drop)]
pub struct Seen {
    added: Table<u64, MAX_ENTRIES>,
    updated: Table<u64, MAX_ENTRIES>,
    changed: Table<u64, MAX_ENTRIES>,
    removed: Table<u64, MAX_ENTRIES>,
}

impl Seen {
    // Nothing happened yet.
    pub(crate) fn new() -> Seen
        ensures { result ≡ record { added = []; updated = []; changed = []; removed = [] } }
    {
        Seen {
            added: Table::new(),
            updated: Table::new(),
            changed: Table::new(),
            removed: Table::new(),
        }
    }
}

// A client that is in the list already stays in it; one update has no more clients than places.
fn put(list: &mut Table<u64, MAX_ENTRIES>, client: u64)
    ensures { list.new ≡ put true client list.old }
{
    let _place = list.put(client);
}

impl Observer for Seen {
    ghost after = { seen_after };

    // The client goes into the lists that tell of the change.
    fn note(&mut self, client: u64, change: Change) {
        match change {
            Change::Kept | Change::Hidden => {}
            Change::Added => put(&mut self.added, client),
            Change::Repeated | Change::Raised => put(&mut self.updated, client),
            Change::Changed => {
                put(&mut self.updated, client);
                put(&mut self.changed, client);
            }
            Change::Removed => put(&mut self.removed, client),
        }
    }
}

// The caller's places for the four lists.
#[derive(Drop)]
pub struct ChangeLists<'a> {
    // a text came where no record was
    pub added: &'a mut [u64],
    // a text was taken over a record, or the own record was raised
    pub updated: &'a mut [u64],
    // a text was taken over a record that was not live with the same bytes
    pub changed: &'a mut [u64],
    // a null was taken over a record
    pub removed: &'a mut [u64],
}

// How many clients each of the four lists has.
#[derive(Clone, Copy, Debug, PartialEq, Eq)]
pub struct AwarenessUpdateSummary {
    pub added: usize,
    pub updated: usize,
    pub changed: usize,
    pub removed: usize,
}

// The clients at the front of the places, and how many they are.
fn fill(list: &Table<u64, MAX_ENTRIES>, places: &mut [u64]) -> usize
    requires { 64 ≤ length places.old }
    ensures count { result ≡ length list.now }
    ensures filled { places.new ≡ over list.now places.old }
{
    let clients = list.entries();
    let count = clients.len();
    places[..count].copy_from_slice(clients);
    count
}

impl ChangeLists<'_> {
    // Whether each list has the places that an update may need.
    pub(crate) fn check(&self) -> Result<(), BufferTooShort>
        ensures { result ≡ (if enough self.now then Ok tt else Err (record {})) }
    {
        if self.added.len() >= MAX_ENTRIES
            && self.updated.len() >= MAX_ENTRIES
            && self.changed.len() >= MAX_ENTRIES
            && self.removed.len() >= MAX_ENTRIES
        {
            Ok(())
        } else {
            Err(BufferTooShort)
        }
    }

    // The lists that were seen at the front of the places, and how many clients each has.
    pub(crate) fn fill(&mut self, seen: &Seen) -> AwarenessUpdateSummary
        requires { enough self.old ≡ true }
        ensures lengths { result ≡ record { added = length seen.now.added; updated = length seen.now.updated; changed = length seen.now.changed; removed = length seen.now.removed } }
        ensures added { self.new.added.now ≡ over seen.now.added self.old.added.now }
        ensures updated { self.new.updated.now ≡ over seen.now.updated self.old.updated.now }
        ensures changed { self.new.changed.now ≡ over seen.now.changed self.old.changed.now }
        ensures removed { self.new.removed.now ≡ over seen.now.removed self.old.removed.now }
        ensures added_long { length self.new.added.now ≡ length self.old.added.now }
        ensures updated_long { length self.new.updated.now ≡ length self.old.updated.now }
        ensures changed_long { length self.new.changed.now ≡ length self.old.changed.now }
        ensures removed_long { length self.new.removed.now ≡ length self.old.removed.now }
        ensures added_is { self.new.added.ghost_name ≡ self.old.added.ghost_name }
        ensures updated_is { self.new.updated.ghost_name ≡ self.old.updated.ghost_name }
        ensures changed_is { self.new.changed.ghost_name ≡ self.old.changed.ghost_name }
        ensures removed_is { self.new.removed.ghost_name ≡ self.old.removed.ghost_name }
    {
        AwarenessUpdateSummary {
            added: fill(&seen.added, self.added),
            updated: fill(&seen.updated, self.updated),
            changed: fill(&seen.changed, self.changed),
            removed: fill(&seen.removed, self.removed),
        }
    }
}
