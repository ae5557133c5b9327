// Short examples, and an entry type as presence has them, which the order law has to fit.
ghost use Rattle.std.specs.Prelude.{[], not, ◌≡◌, ◌&&◌, ◌||◌, ◌==◌, nat_lt};
ghost use Rattle.std.proofs.Common.{rules};
ghost use Rattle.state_vector.specs.Tables.{offered, outcome};

use crate::keyed::{Keyed, Outcome, Table, TableFull};
use crate::lent::LentTable;
use crate::standing::Standing;
use crate::vector::{StateVector, VectorEntry, check_vector};
use encoding::fault::WireFault;
use encoding::sink::{BufferTooShort, Filler};
use std::marker::Model;
use std::test::Fail;

// An entry as presence has them: a higher clock stands above, and at the same clock one that is gone above one that is live.
#[derive(Clone, Copy, Default)]
struct Presence {
    client: u64,
    clock: u32,
    live: bool,
}

impl Keyed for Presence {
    ghost key = { λ e. e.client };

    // An entry goes by its client.
    fn client(&self) -> u64 {
        self.client
    }
}

impl Standing for Presence {
    ghost above = { λ x y. nat_lt y.clock x.clock || (x.clock == y.clock && (not x.live && y.live)) };

    ghost irreflexive = { Prim.search rules };

    ghost asymmetric = { Prim.search rules };

    ghost third = { Prim.search rules };

    // By the clock, then by whether one is gone.
    fn stands_above(&self, held: &Presence) -> bool {
        self.clock > held.clock || (self.clock == held.clock && !self.live && held.live)
    }
}

// An owner of two places, which hands them to a table for one call.
#[derive(Drop)]
struct Pair {
    entries: [Presence; 2],
    len: usize,
}

impl Model for Pair {
    ghost use Rattle.std.specs.Prelude.{◌≡◌, ◌≤◌, true, List, take};
    ghost use Rattle.state_vector.specs.Tables.{ascends};
    ghost use Rattle.state_vector.specs.declared.tests.Presence.{Presence};

    ghost Value = { List Presence };

    ghost view = { λ p. take p.len p.entries };

    ghost invariant = { λ p. (p.len ≤ 2) × (ascends (λ e. e.client) (take p.len p.entries) ≡ true) };
}

impl Pair {
    // Two free places.
    fn new() -> Pair
        ensures { result ≡ [] }
    {
        Pair {
            entries: [Presence::default(); 2],
            len: 0,
        }
    }

    // Offers an entry to the table over the two.
    fn offer(&mut self, e: Presence) -> Result<Outcome, TableFull>
        ensures answer { result ≡ outcome (λ e. e.client) (λ x y. nat_lt y.clock x.clock || (x.clock == y.clock && (not x.live && y.live))) 2 self.old e }
        ensures used { self.new ≡ offered (λ e. e.client) (λ x y. nat_lt y.clock x.clock || (x.clock == y.clock && (not x.live && y.live))) 2 self.old e }
    {
        let mut table = LentTable {
            entries: &mut self.entries,
            len: self.len,
        };
        let r = table.offer(e);
        self.len = table.len;
        r
    }
}

// An entry of a client at a clock.
fn seen_at(client: u64, clock: u32, live: bool) -> Presence {
    Presence {
        client,
        clock,
        live,
    }
}

// A tie is kept, gone stands above live, and a third client finds no place.
#[test]
fn offers(rt: HostRuntime) {
    let mut pair: Table<Presence, 2> = Table::new();
    assert_eq!(rt; pair.offer(seen_at(7, 1, true)), Ok(Outcome::Inserted));
    assert_eq!(rt; pair.offer(seen_at(3, 1, true)), Ok(Outcome::Inserted));
    assert_eq!(rt; pair.offer(seen_at(5, 9, true)), Err(TableFull));
    assert_eq!(rt; pair.offer(seen_at(7, 1, true)), Ok(Outcome::Kept));
    assert_eq!(rt; pair.offer(seen_at(7, 1, false)), Ok(Outcome::Replaced));
    assert_eq!(rt; pair.offer(seen_at(7, 1, true)), Ok(Outcome::Kept));
    assert_eq!(rt; pair.offer(seen_at(3, 2, true)), Ok(Outcome::Replaced));
    assert_eq!(rt; pair.len(), 2);
    let (first, second) = (pair.entries()[0], pair.entries()[1]);
    assert_eq!(rt; first.client, 3);
    assert_eq!(rt; first.clock, 2);
    assert!(rt; !second.live);
}

// The same in two places that are lent.
#[test]
fn offers_to_lent_places(rt: HostRuntime) {
    let mut pair = Pair::new();
    assert_eq!(rt; pair.offer(seen_at(7, 1, true)), Ok(Outcome::Inserted));
    assert_eq!(rt; pair.offer(seen_at(3, 1, true)), Ok(Outcome::Inserted));
    assert_eq!(rt; pair.offer(seen_at(5, 9, true)), Err(TableFull));
    assert_eq!(rt; pair.offer(seen_at(7, 1, true)), Ok(Outcome::Kept));
    assert_eq!(rt; pair.offer(seen_at(7, 1, false)), Ok(Outcome::Replaced));
    assert_eq!(rt; pair.offer(seen_at(7, 1, true)), Ok(Outcome::Kept));
    assert_eq!(rt; pair.offer(seen_at(3, 2, true)), Ok(Outcome::Replaced));
    assert_eq!(rt; pair.len, 2);
    let [first, second] = pair.entries;
    assert_eq!(rt; first.client, 3);
    assert_eq!(rt; first.clock, 2);
    assert!(rt; !second.live);
}

// An entry of a client at a clock.
fn known_to(client: u64, clock: u32) -> VectorEntry {
    VectorEntry { client, clock }
}

// A lower clock takes the place of a higher one, and an id from 2^53 on changes nothing.
#[test]
fn keeps_the_last(rt: HostRuntime) -> Result<(), Fail> {
    let mut v = StateVector::new();
    v.put(known_to(7, 3))?;
    v.put(known_to(3, 1))?;
    v.put(known_to(7, 2))?;
    assert_eq!(rt; v.get(7), Some(2));
    assert_eq!(rt; v.get(4), None);
    assert_eq!(rt; v.entries(), [known_to(3, 1), known_to(7, 2)].as_slice());
    assert_eq!(rt;
        v.put(known_to(9007199254740992, 1)),
        Err(WireFault::InvalidClientId)
    );
    assert_eq!(rt; v.len(), 2);
    Ok(())
}

// With all 64 places taken, a new client is refused and a held one is not.
#[test]
fn refuses_a_65th_client(rt: HostRuntime) -> Result<(), Fail> {
    let mut v = StateVector::new();
    for i in 0u64..64 {
        v.put(known_to(2 * i, 1))?;
    }
    assert_eq!(rt; v.put(known_to(5, 1)), Err(WireFault::TooManyEntries));
    v.put(known_to(6, 2))?;
    assert_eq!(rt; v.get(6), Some(2));
    assert_eq!(rt; v.get(5), None);
    assert_eq!(rt; v.len(), 64);
    Ok(())
}

// A repeated client, a client at 0, bytes after the last entry, and the faults.
#[test]
fn reads(rt: HostRuntime) -> Result<(), Fail> {
    let v = StateVector::read(&[3, 7, 9, 3, 0, 7, 2, 255])?;
    assert_eq!(rt; v.entries(), [known_to(3, 0), known_to(7, 2)].as_slice());
    assert_eq!(rt; v.get(3), Some(0));
    assert_eq!(rt;
        StateVector::read(&[65]).err(),
        Some(WireFault::TooManyEntries)
    );
    assert_eq!(rt;
        StateVector::read(&[1, 7]).err(),
        Some(WireFault::EndOfBuffer)
    );
    assert_eq!(rt;
        check_vector(&[1, 128, 128, 128, 128, 128, 128, 128, 16, 0]),
        Err(WireFault::InvalidClientId)
    );
    assert_eq!(rt; check_vector(&[65]), Err(WireFault::TooManyEntries));
    assert_eq!(rt; check_vector(&[3, 7, 9, 3, 0, 7, 2, 255]), Ok(()));
    Ok(())
}

// Into a buffer that is one byte too short nothing is written.
#[test]
fn writes_whole_or_not_at_all(rt: HostRuntime) -> Result<(), Fail> {
    let mut v = StateVector::new();
    v.put(known_to(5, 300))?;
    let mut out = [0xee; 4];
    let mut short = Filler {
        out: &mut out[..3],
        at: 0,
    };
    assert_eq!(rt; v.write(&mut short), Err(BufferTooShort));
    assert_eq!(rt; out, [0xee; 4]);
    let mut filler = Filler {
        out: &mut out,
        at: 0,
    };
    v.write(&mut filler)?;
    assert_eq!(rt; out, *b"\x01\x05\xac\x02");
    Ok(())
}
