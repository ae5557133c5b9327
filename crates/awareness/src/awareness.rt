// The table of presence records: what entries, sets and removals do to it.
ghost use Rattle.std.specs.Prelude.{◌≡◌, ℕ, ◌^◌, ◌<◌, ◌≤◌, true, [], ◌∷◌, length, Ok, Err, Result, MatchResult};
ghost use Rattle.std.specs.List.{All};
ghost use Rattle.std.specs.Option.{option_copied};
ghost use Rattle.std.specs.Result.{result_and, result_map_both};
ghost use Rattle.encoding.specs.Fields.{client_id};
ghost use Rattle.state_vector.specs.Tables.{ascends, Found, Missing};
ghost use Rattle.awareness.specs.Calls.{judged, rise_for, room_for};
ghost use Rattle.awareness.specs.Record.{Record, Clients, client_of, held_of, Writable};
ghost use Rattle.awareness.specs.Changes.{change_by, changes, comes, noted, same};
ghost use Rattle.awareness.specs.Following.{so_far, stands};
ghost use Rattle.awareness.specs.Taking.{defies, plain, rises, received, stored, taken};

use crate::change::Change;
use crate::fault::PresenceFault;
use crate::observer::Observer;
use crate::record::{Arrival, Record, outranks};
use crate::standing::Standing;
use encoding::fault::WireFault;
use encoding::read::{MAX_ENTRIES, check_client_id};
use message::arrived::{ArrivedEntry, ArrivedUpdate};
use message::update::Presence;
use state_vector::keyed::{Keyed, Table};
use std::marker::Model;

// The own client id, and a record of each of at most 64 clients.
#[derive(Drop)]
pub struct Awareness {
    pub(crate) own: u64,
    pub(crate) table: Table<Record, MAX_ENTRIES>,
}

impl Model for Awareness {
    ghost use Rattle.std.specs.Prelude.{◌≡◌, ◌^◌, ◌<◌, true};
    ghost use Rattle.std.specs.List.{All};
    ghost use Rattle.state_vector.specs.Tables.{ascends};
    ghost use Rattle.awareness.specs.Record.{Clients, client_of, Writable};

    ghost Value = { Clients };

    ghost view = { λ a. record { own = a.own; rows = a.table } };

    ghost invariant = { λ a. (a.own < 2 ^ 53) × (ascends client_of a.table ≡ true) × All Writable a.table };
}

// Whether the record is the own one, live, and meets a null with a clock not below its own.
fn defies(own: u64, held: &Record, e: &ArrivedEntry<'_>) -> bool
    ensures { result ≡ defies own held.now e.now }
{
    held.client() == own
        && held.state().is_some()
        && e.state().is_none()
        && held.clock() <= e.clock()
}

// Whether a text is held, with these bytes.
fn same(held: &Record, text: &[u8]) -> bool
    ensures { result ≡ same held.now.state text.now }
{
    held.state().is_some_and(|held| held.as_bytes() == text)
}

// What an entry does to what is held of its client.
pub(crate) fn change_by(own: u64, held: Option<&Record>, e: &ArrivedEntry<'_>) -> Change
    ensures { result ≡ change_by own (option_copied held.entry) e.now }
{
    let Some(held) = held else {
        return match e.state() {
            Some(_) => Change::Added,
            None => Change::Hidden,
        };
    };
    if defies(own, held, e) {
        return Change::Raised;
    }
    if !outranks(e.clock(), e.state().is_some(), held) {
        return Change::Kept;
    }
    match e.state() {
        None => Change::Removed,
        Some(text) if same(held, text) => Change::Repeated,
        Some(_) => Change::Changed,
    }
}

impl Awareness {
    // A table without records, of the client with this id.
    pub fn new(own: u64) -> Result<Awareness, WireFault>
        ensures { result ≡ result_and (client_id own) (Ok (record { own = own; rows = [] })) }
    {
        check_client_id(own)?;
        Ok(Awareness {
            own,
            table: Table::new(),
        })
    }

    // The own client id.
    pub fn client_id(&self) -> u64
        ensures is { result ≡ self.now.own }
        ensures known { result < 2 ^ 53 }
    {
        self.own
    }

    // The records, ascending by client.
    pub fn records(&self) -> &[Record]
        ensures all { result.now ≡ self.now.rows }
        ensures few { length result.now ≤ 64 }
        ensures ascends { ascends client_of result.now ≡ true }
        ensures writable { All Writable result.now }
    {
        self.table.entries()
    }

    // The record of a client, where one is held.
    pub fn meta(&self, client: u64) -> Result<Option<&Record>, WireFault>
        ensures { result_map_both option_copied (λ f. f) result ≡ result_and (client_id client) (Ok (held_of client self.now.rows)) }
    {
        check_client_id(client)?;
        Ok(self.table.get(client))
    }

    // What an entry does, and the record that comes in with it.
    fn meet(&self, e: &ArrivedEntry<'_>, now: u64) -> (Change, Option<Record>)
        requires rises { rises self.now.own (held_of e.now.client self.now.rows) e.now ≡ true }
        ensures change { result.0 ≡ change_by self.now.own (held_of e.now.client self.now.rows) e.now }
        ensures record { result.1 ≡ comes self.now.own now (held_of e.now.client self.now.rows) e.now }
        ensures ascends { ascends client_of self.now.rows ≡ true }
    {
        let held = self.table.get(e.client());
        let change = change_by(self.own, held, e);
        let record = match (change, held) {
            (Change::Kept, _) => None,
            (Change::Raised, Some(held)) => Some(held.raised(e.clock() + 1, now)),
            _ => Some(Record::of(e, now)),
        };
        (change, record)
    }

    // Puts a record in the place of its client's, where there is a place.
    pub(crate) fn store(&mut self, come: Record)
        requires { length (stored self.old.rows come) ≤ 64 }
        ensures rows { self.new.rows ≡ stored self.old.rows come }
        ensures own { self.new.own ≡ self.old.own }
    {
        // a look at a field brings in what is true of every record
        let _passed = &come.time;
        self.table.put(come).unwrap();
    }

    // The place of a client, or else the place where it would go: it is looked for where it is expected, and then by a search.
    fn find_near(&self, near: usize, client: u64) -> Result<usize, usize>
        ensures { MatchResult result (Found client_of client self.now.rows) (Missing client_of client self.now.rows) }
    {
        match self.records().get(near) {
            Some(held) if held.client() == client => Ok(near),
            _ => self.table.find(client),
        }
    }

    // What an entry does whose client was searched for.
    fn change_at(&self, place: Result<usize, usize>, e: &ArrivedEntry<'_>) -> Change
        requires { MatchResult place (Found client_of e.now.client self.now.rows) (Missing client_of e.now.client self.now.rows) }
        ensures change { result ≡ change_by self.now.own (held_of e.now.client self.now.rows) e.now }
        ensures ascends { ascends client_of self.now.rows ≡ true }
    {
        let held = match place {
            Ok(at) => Some(&self.records()[at]),
            Err(_) => None,
        };
        change_by(self.own, held, e)
    }

    // Makes the record of an entry's client anew of it, at the place that a search found.
    fn renew(&mut self, place: Result<usize, usize>, e: &Arrival<'_>)
        requires place { MatchResult place (Found client_of e.now.entry.now.client self.old.rows) (Missing client_of e.now.entry.now.client self.old.rows) }
        requires room { length (stored self.old.rows (plain e.now.time e.now.entry.now)) ≤ 64 }
        ensures rows { self.new.rows ≡ stored self.old.rows (plain e.now.time e.now.entry.now) }
        ensures own { self.new.own ≡ self.old.own }
    {
        // a look at its state brings in that the entry can be written
        let _state = e.entry.state();
        self.table.put_made(place, e).unwrap();
    }

    // Takes an entry that finds a place, and whose clock can rise where it has to: what `receive_anew` does, with the record made where it lies unless the one held is raised.
    pub(crate) fn receive_at(&mut self, place: Result<usize, usize>, e: &Arrival<'_>) -> Change
        requires place { MatchResult place (Found client_of e.now.entry.now.client self.old.rows) (Missing client_of e.now.entry.now.client self.old.rows) }
        requires room { length (received self.old.own e.now.time self.old.rows e.now.entry.now) ≤ 64 }
        requires rises { rises self.old.own (held_of e.now.entry.now.client self.old.rows) e.now.entry.now ≡ true }
        ensures change { result ≡ change_by self.old.own (held_of e.now.entry.now.client self.old.rows) e.now.entry.now }
        ensures rows { self.new.rows ≡ received self.old.own e.now.time self.old.rows e.now.entry.now }
        ensures own { self.new.own ≡ self.old.own }
    {
        let change = self.change_at(place, e.entry);
        match change {
            Change::Kept => change,
            Change::Raised => self.receive_anew(e.entry, e.time),
            _ => {
                self.renew(place, e);
                change
            }
        }
    }

    // The same in two steps: what an entry does, and then the record that comes in with it.
    fn receive_anew(&mut self, e: &ArrivedEntry<'_>, now: u64) -> Change
        requires room { length (received self.old.own now self.old.rows e.now) ≤ 64 }
        requires rises { rises self.old.own (held_of e.now.client self.old.rows) e.now ≡ true }
        ensures change { result ≡ change_by self.old.own (held_of e.now.client self.old.rows) e.now }
        ensures rows { self.new.rows ≡ received self.old.own now self.old.rows e.now }
        ensures own { self.new.own ≡ self.old.own }
    {
        let (change, record) = self.meet(e, now);
        if let Some(record) = record {
            self.store(record);
        }
        change
    }

    // Whether all clients would find a place.
    pub(crate) fn judge_room(&self, update: &ArrivedUpdate<'_>) -> Result<(), PresenceFault>
        ensures { (now : ℕ) → result ≡ room_for (taken self.now.own now self.now.rows update.now) }
    {
        if self.table.len() + update.len() <= MAX_ENTRIES {
            return Ok(());
        }
        let mut new = Table::<u64, MAX_ENTRIES>::new();
        // where the next client is expected, as entries mostly ascend
        let mut near = 0;
        for e in update.iter() {
            match self.find_near(near, e.client()) {
                Ok(at) => near = at.saturating_add(1),
                Err(at) => {
                    near = at;
                    new.put(e.client())?;
                }
            }
        }
        if self.table.len() + new.len() <= MAX_ENTRIES {
            Ok(())
        } else {
            Err(PresenceFault::TooManyClients)
        }
    }

    // The standing of the own record that was followed so far, or else of the one that is held.
    fn standing(&self, followed: Option<Standing>) -> Option<Standing>
        ensures { result ≡ so_far followed (stands (held_of self.now.own self.now.rows)) }
    {
        match followed {
            Some(_) => followed,
            None => self.table.get(self.own).map(Standing::of),
        }
    }

    // Whether the own clock could rise where it would have to; most updates do not name the own client, and then it is not looked up.
    pub(crate) fn judge_own(&self, update: &ArrivedUpdate<'_>) -> Result<(), PresenceFault>
        ensures { (now : ℕ) → result ≡ rise_for (held_of self.now.own (taken self.now.own now self.now.rows update.now)) }
    {
        let mut followed: Option<Standing> = None;
        for e in update.iter() {
            if e.client() == self.own {
                followed = Some(Standing::after(self.standing(followed), &e)?);
            }
        }
        Ok(())
    }

    // Whether there is room for an entry that came alone, and whose client was searched for.
    pub(crate) fn judge_place(
        &self,
        place: Result<usize, usize>,
        e: &ArrivedEntry<'_>,
    ) -> Result<(), PresenceFault>
        requires { MatchResult place (Found client_of e.now.client self.now.rows) (Missing client_of e.now.client self.now.rows) }
        ensures { (now : ℕ) → result ≡ room_for (taken self.now.own now self.now.rows (e.now ∷ [])) }
    {
        if self.table.len() < MAX_ENTRIES {
            return Ok(());
        }
        match place {
            Ok(_) => Ok(()),
            Err(_) => Err(PresenceFault::TooManyClients),
        }
    }

    // Whether the own clock could rise where an entry that came alone makes it.
    pub(crate) fn judge_rise(&self, e: &ArrivedEntry<'_>) -> Result<(), PresenceFault>
        ensures { (now : ℕ) → result ≡ rise_for (held_of self.now.own (taken self.now.own now self.now.rows (e.now ∷ []))) }
    {
        if e.client() == self.own {
            Standing::after(self.standing(None), e)?;
        }
        Ok(())
    }

    // Takes the entries of an update that was judged, and tells of each change.
    pub(crate) fn take<O: Observer>(&mut self, update: &ArrivedUpdate<'_>, now: u64, seen: &mut O)
        requires { judged self.old.own (taken self.old.own now self.old.rows update.now) ≡ Ok tt }
        ensures rows { self.new.rows ≡ taken self.old.own now self.old.rows update.now }
        ensures own { self.new.own ≡ self.old.own }
        ensures seen { seen.new ≡ noted O.Observer.after seen.old (changes self.old.own now self.old.rows update.now) }
        ensures ascended { ascends client_of self.old.rows ≡ true }
    {
        // a look at a field brings in that the records ascend
        let _held = &self.own;
        // where the next client is expected, as entries mostly ascend
        let mut near: usize = 0;
        for e in update.iter() {
            let place = self.find_near(near, e.client());
            near = place.unwrap_or_else(|at| at).saturating_add(1);
            let e = Arrival {
                entry: &e,
                time: now,
            };
            let change = self.receive_at(place, &e);
            seen.note(e.entry.client(), change);
        }
    }
}
