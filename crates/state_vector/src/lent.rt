// Tables over a lent slice of any length, whose first `len` entries are in use: for an owner that keeps its entries in a slice or an array of its own.
ghost use Rattle.std.specs.Prelude.{◌≡◌, ◌+◌, ◌<◌, ◌≤◌, Bool, true, length, take, drop, if◌then◌else◌, Err, Ok, MatchResult, nat_le, slice_set};
ghost use Rattle.std.specs.List.{insert};
ghost use Rattle.state_vector.specs.Tables.{AnswersBy, ascends, always, offered, updated, outcome, Found, Missing};

use crate::keyed::{Keyed, Outcome, TableFull, find};
use crate::standing::Standing;

// Shifts the entries in use from `at` on up by one, and puts `e` at `at`.
// The room and the place are known to the caller, who has just searched the table.
pub fn insert<E: Copy>(entries: &mut [E], len: usize, at: usize, e: E)
    requires fits { len < length entries.old }
    requires within { at ≤ len }
    ensures used { take (len + 1) entries.new ≡ insert (take len entries.old) at e }
    ensures rest { drop (len + 1) entries.new ≡ drop (len + 1) entries.old }
{
    entries[len] = e;
    entries[at..len + 1].rotate_right(1);
}

// Puts a newcomer in the place of the entry at `at`. The place is known to the caller, who has just found it.
pub fn replace<E: Copy>(entries: &mut [E], len: usize, at: usize, newcomer: E)
    requires fits { len ≤ length entries.old }
    requires within { at < len }
    ensures used { take len entries.new ≡ slice_set (take len entries.old) at newcomer }
    ensures rest { drop len entries.new ≡ drop len entries.old }
{
    entries[at] = newcomer;
}

// A table over a slice: its first `len` entries are in use and ascend by client id, the others are free places.
// Whoever owns the slice has both as an invariant; a table is made over it for one call.
#[derive(Drop)]
pub struct LentTable<'a, E> {
    pub entries: &'a mut [E],
    pub len: usize,
}

impl<E: Keyed> LentTable<'_, E> {
    // The place of the client's entry, or else the place where it would go.
    pub fn find(&self, client: u64) -> Result<usize, usize>
        requires fits { self.now.len ≤ length self.now.entries.now }
        requires ascends { ascends E.Keyed.key (take self.now.len self.now.entries.now) ≡ true }
        ensures { MatchResult result (Found E.Keyed.key client (take self.now.len self.now.entries.now)) (Missing E.Keyed.key client (take self.now.len self.now.entries.now)) }
    {
        find(&self.entries[0..self.len], client)
    }
}

impl<E: Keyed + Copy> LentTable<'_, E> {
    // Inserts an entry where the search for its client ended, if a place is left.
    fn insert_at(&mut self, at: usize, e: E) -> Result<Outcome, TableFull>
        requires fits { self.old.len ≤ length self.old.entries.now }
        requires within { at ≤ self.old.len }
        ensures answer { result ≡ (if nat_le (length self.old.entries.now) self.old.len then Err (record {}) else Ok Outcome.Inserted) }
        ensures used { take self.new.len self.new.entries.now ≡ (if nat_le (length self.old.entries.now) self.old.len then take self.old.len self.old.entries.now else insert (take self.old.len self.old.entries.now) at e) }
        ensures rest { drop self.new.len self.new.entries.now ≡ drop self.new.len self.old.entries.now }
        ensures fits { self.new.len ≤ length self.new.entries.now }
        ensures places { length self.new.entries.now ≡ length self.old.entries.now }
        ensures named { self.new.entries.ghost_name ≡ self.old.entries.ghost_name }
    {
        let len = self.len;
        if len < self.entries.len() {
            insert(self.entries, len, at, e);
            self.len = len + 1;
            Ok(Outcome::Inserted)
        } else {
            Err(TableFull)
        }
    }

    // Brings an entry: inserted where its client is absent, it takes the place of the one held only if it stands above it; with no place left nothing changes.
    // What stands above what the closure answers, and the clauses hold of each function that gives its answers.
    fn bring<F: Fn(&E, &E) -> bool>(&mut self, e: E, stands_above: F) -> Result<Outcome, TableFull>
        requires callable { F.IsAlwaysCallable stands_above }
        requires fits { self.old.len ≤ length self.old.entries.now }
        requires ascends { ascends E.Keyed.key (take self.old.len self.old.entries.now) ≡ true }
        ensures answer { (above : E → E → Bool) → AnswersBy (F.post stands_above) above → result ≡ outcome E.Keyed.key above (length self.old.entries.now) (take self.old.len self.old.entries.now) e }
        ensures used { (above : E → E → Bool) → AnswersBy (F.post stands_above) above → take self.new.len self.new.entries.now ≡ offered E.Keyed.key above (length self.old.entries.now) (take self.old.len self.old.entries.now) e }
        ensures rest { drop self.new.len self.new.entries.now ≡ drop self.new.len self.old.entries.now }
        ensures fits { self.new.len ≤ length self.new.entries.now }
        ensures ascends { ascends E.Keyed.key (take self.new.len self.new.entries.now) ≡ true }
        ensures places { length self.new.entries.now ≡ length self.old.entries.now }
        ensures named { self.new.entries.ghost_name ≡ self.old.entries.ghost_name }
    {
        let len = self.len;
        match self.find(e.client()) {
            Ok(at) => {
                if stands_above(&e, &self.entries[at]) {
                    replace(self.entries, len, at, e);
                    Ok(Outcome::Replaced)
                } else {
                    Ok(Outcome::Kept)
                }
            }
            Err(at) => self.insert_at(at, e),
        }
    }

    // Brings an entry that takes the place of its client's, whatever that is; with no place left nothing changes.
    pub fn put(&mut self, e: E) -> Result<Outcome, TableFull>
        requires fits { self.old.len ≤ length self.old.entries.now }
        requires ascends { ascends E.Keyed.key (take self.old.len self.old.entries.now) ≡ true }
        ensures answer { result ≡ outcome E.Keyed.key always (length self.old.entries.now) (take self.old.len self.old.entries.now) e }
        ensures used { take self.new.len self.new.entries.now ≡ updated E.Keyed.key (length self.old.entries.now) (take self.old.len self.old.entries.now) e }
        ensures rest { drop self.new.len self.new.entries.now ≡ drop self.new.len self.old.entries.now }
        ensures fits { self.new.len ≤ length self.new.entries.now }
        ensures ascends { ascends E.Keyed.key (take self.new.len self.new.entries.now) ≡ true }
        ensures places { length self.new.entries.now ≡ length self.old.entries.now }
        ensures named { self.new.entries.ghost_name ≡ self.old.entries.ghost_name }
    {
        self.bring(e, |_, _| true)
    }
}

impl<E: Standing + Copy> LentTable<'_, E> {
    // Offers an entry: inserted where its client is absent, it replaces the one held only if it stands above it; with no place left nothing changes.
    pub fn offer(&mut self, e: E) -> Result<Outcome, TableFull>
        requires fits { self.old.len ≤ length self.old.entries.now }
        requires ascends { ascends E.Keyed.key (take self.old.len self.old.entries.now) ≡ true }
        ensures answer { result ≡ outcome E.Keyed.key E.Standing.above (length self.old.entries.now) (take self.old.len self.old.entries.now) e }
        ensures used { take self.new.len self.new.entries.now ≡ offered E.Keyed.key E.Standing.above (length self.old.entries.now) (take self.old.len self.old.entries.now) e }
        ensures rest { drop self.new.len self.new.entries.now ≡ drop self.new.len self.old.entries.now }
        ensures fits { self.new.len ≤ length self.new.entries.now }
        ensures ascends { ascends E.Keyed.key (take self.new.len self.new.entries.now) ≡ true }
        ensures places { length self.new.entries.now ≡ length self.old.entries.now }
        ensures named { self.new.entries.ghost_name ≡ self.old.entries.ghost_name }
    {
        self.bring(e, |e, held| e.stands_above(held))
    }
}
