// Tables of entries that ascend by client id, at most `N` of them, found, inserted and replaced in place.
ghost use Rattle.std.specs.Prelude.{◌≡◌, ℕ, ◌<◌, ◌≤◌, Bool, true, [], length, insert, slice_set, nat_le, if◌then◌else◌, MatchResult};
ghost use Rattle.std.specs.Option.{option_copied};
ghost use Rattle.state_vector.specs.Tables.{AnswersBy, ascends, held, always, offered, updated, outcome, Found, Missing};

use arrayvec::ArrayVec;
use encoding::fault::WireFault;
use std::marker::Model;

// An entry that has a client id.
pub trait Keyed {
    // the client id
    ghost key: { Self → ℕ };

    // The client id of the entry.
    fn client(&self) -> u64
        ensures { result ≡ key self.now };
}

// A client id alone, for a table of ids.
impl Keyed for u64 {
    ghost key = { λ n. n };

    fn client(&self) -> u64 {
        *self
    }
}

// An entry that can be made anew where it lies, of what came.
pub trait Renew<S>: Keyed {
    // the entry that is made of it
    ghost made: { S → Self };

    // Becomes the entry that is made of what came.
    fn renew(&mut self, from: &S)
        ensures { self.new ≡ made from.now };
}

// What became of an entry that came to a table.
#[derive(Clone, Copy, Debug, PartialEq, Eq)]
pub enum Outcome {
    // its client was absent, and it was inserted
    Inserted,
    // it took the place of the entry held
    Replaced,
    // the entry held stays
    Kept,
}

// Why an entry is turned away: its client was absent, and no place was left. Nothing changed.
#[derive(Clone, Copy, Debug, PartialEq, Eq)]
pub struct TableFull;

// By hand, as clauses name the fault that `?` makes.
impl From<TableFull> for WireFault {
    ghost use Rattle.std.specs.Prelude.{◌≡◌};
    ghost use Rattle.encoding.specs.declared.fault.WireFault.TheVariants.{TooManyEntries};

    ghost from_gives = { λ _ r. r ≡ TooManyEntries };

    // On the wire a full table is one entry too many.
    fn from(_full: TableFull) -> WireFault {
        WireFault::TooManyEntries
    }
}

// The place of the client's entry, or else the place where it would go; at most seven comparisons among 64.
// A search by halves needs that the entries ascend: a table's do.
pub fn find<E: Keyed>(entries: &[E], client: u64) -> Result<usize, usize>
    requires { ascends E.Keyed.key entries.now ≡ true }
    ensures { MatchResult result (Found E.Keyed.key client entries.now) (Missing E.Keyed.key client entries.now) }
{
    entries.binary_search_by_key(&client, |e| e.client())
}

// The client's entry, where the entries have one.
pub fn look_up<E: Keyed>(entries: &[E], client: u64) -> Option<&E>
    requires { ascends E.Keyed.key entries.now ≡ true }
    ensures { option_copied result ≡ held E.Keyed.key client entries.now }
{
    let at = find(entries, client).ok()?;
    Some(&entries[at])
}

// Inserts an entry where the search for its client ended, if a place is left.
fn insert_at<E: Drop, const N: usize>(
    entries: &mut ArrayVec<E, N>,
    at: usize,
    e: E,
) -> Result<Outcome, TableFull>
    requires { at ≤ length entries.old.items }
    ensures answer { result ≡ (if nat_le N (length entries.old.items) then Err (record {}) else Ok Outcome.Inserted) }
    ensures used { entries.new.items ≡ (if nat_le N (length entries.old.items) then entries.old.items else insert entries.old.items at e) }
{
    entries.try_insert(at, e).map_err(|_| TableFull)?;
    Ok(Outcome::Inserted)
}

// Makes the entry at a place anew.
fn renew_at<S, E: Renew<S> + Drop, const N: usize>(
    entries: &mut ArrayVec<E, N>,
    at: usize,
    from: &S,
)
    requires { at < length entries.old.items }
    ensures { entries.new.items ≡ slice_set entries.old.items at (E.Renew.made from.now) }
{
    entries[at].renew(from);
}

// At most `N` entries that ascend by client id, which lie in the value itself: nothing is allocated.
#[derive(Drop)]
pub struct Table<E: Keyed, const N: usize> {
    entries: ArrayVec<E, N>,
}

impl<E: Keyed, const N: usize> Model for Table<E, N> {
    ghost use Rattle.std.specs.Prelude.{◌≡◌, true, List};
    ghost use Rattle.state_vector.specs.Tables.{ascends};

    ghost Value = { List E };

    ghost view = { λ t. t.entries.items };

    ghost invariant = { λ t. ascends E.key t.entries.items ≡ true };
}

impl<E: Keyed + Default, const N: usize> Table<E, N> {
    // A table without entries. No derived `Default`, which would promise nothing.
    pub fn new() -> Table<E, N>
        ensures { result ≡ [] }
    {
        Table {
            entries: ArrayVec::new(),
        }
    }
}

impl<E: Keyed, const N: usize> Table<E, N> {
    // The entries, ascending by client id.
    pub fn entries(&self) -> &[E]
        ensures all { result.now ≡ self.now }
        ensures few { length result.now ≤ N }
        ensures ascends { ascends E.Keyed.key result.now ≡ true }
    {
        self.entries.as_slice()
    }

    // How many entries it has.
    pub fn len(&self) -> usize
        ensures count { result ≡ length self.now }
        ensures few { result ≤ N }
    {
        self.entries.len()
    }

    // The place of the client's entry, or else the place where it would go.
    pub fn find(&self, client: u64) -> Result<usize, usize>
        ensures { MatchResult result (Found E.Keyed.key client self.now) (Missing E.Keyed.key client self.now) }
    {
        find(self.entries(), client)
    }

    // The client's entry, where the table has one.
    pub fn get(&self, client: u64) -> Option<&E>
        ensures { option_copied result ≡ held E.Keyed.key client self.now }
    {
        look_up(self.entries(), client)
    }
}

impl<E: Keyed + Drop, const N: usize> Table<E, N> {
    // Brings an entry: inserted where its client is absent, it takes the place of the one held only if it stands above it; with no place left nothing changes.
    // What stands above what the closure answers, and the clauses hold of each function that gives its answers.
    pub(crate) fn bring<F: Fn(&E, &E) -> bool>(
        &mut self,
        e: E,
        stands_above: F,
    ) -> Result<Outcome, TableFull>
        requires { F.IsAlwaysCallable stands_above }
        ensures answer { (above : E → E → Bool) → AnswersBy (F.post stands_above) above → result ≡ outcome E.Keyed.key above N self.old e }
        ensures used { (above : E → E → Bool) → AnswersBy (F.post stands_above) above → self.new ≡ offered E.Keyed.key above N self.old e }
    {
        match self.find(e.client()) {
            Ok(at) => {
                if stands_above(&e, &self.entries[at]) {
                    self.entries[at] = e;
                    Ok(Outcome::Replaced)
                } else {
                    Ok(Outcome::Kept)
                }
            }
            Err(at) => insert_at(&mut self.entries, at, e),
        }
    }

    // Brings an entry that takes the place of its client's, whatever that is; with no place left nothing changes.
    pub fn put(&mut self, e: E) -> Result<Outcome, TableFull>
        ensures answer { result ≡ outcome E.Keyed.key always N self.old e }
        ensures used { self.new ≡ updated E.Keyed.key N self.old e }
    {
        self.bring(e, |_, _| true)
    }
}

impl<E: Keyed + Default + Drop, const N: usize> Table<E, N> {
    // Puts in the entry that is made of what came, as `put` does, at the place that a search found: an entry that is held there is made anew where it lies.
    pub fn put_made<S>(
        &mut self,
        place: Result<usize, usize>,
        from: &S,
    ) -> Result<Outcome, TableFull>
    where
        E: Renew<S>,
        requires { MatchResult place (Found E.Keyed.key (E.Keyed.key (E.Renew.made from.now)) self.old) (Missing E.Keyed.key (E.Keyed.key (E.Renew.made from.now)) self.old) }
        ensures answer { result ≡ outcome E.Keyed.key always N self.old (E.Renew.made from.now) }
        ensures used { self.new ≡ updated E.Keyed.key N self.old (E.Renew.made from.now) }
    {
        match place {
            Ok(at) => {
                renew_at(&mut self.entries, at, from);
                Ok(Outcome::Replaced)
            }
            Err(at) => {
                let mut e = E::default();
                e.renew(from);
                insert_at(&mut self.entries, at, e)
            }
        }
    }
}

impl<E: Keyed + Copy + Default, const N: usize> Table<E, N> {
    // A copy of the table, which cannot fail. By hand, since `Clone` answers that memory may be wanting, and nothing is allocated here.
    pub fn copy(&self) -> Table<E, N>
        ensures { result ≡ self.now }
    {
        Table {
            entries: ArrayVec::try_from(self.entries()).unwrap(),
        }
    }
}
