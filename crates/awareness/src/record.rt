// What a hub holds of a client.
ghost use Rattle.std.specs.Prelude.{◌≡◌, ℕ, List, Option, is_some};
ghost use Rattle.std.specs.Option.{option_copied};
ghost use Rattle.message.specs.Writing.{presence_entry_out};
ghost use Rattle.awareness.specs.Record.{above, outranks, entry_of, Writable};
ghost use Rattle.awareness.specs.Taking.{plain};
ghost use Rattle.std.proofs.Common.{rules};

use encoding::entries_out::Entry;
use encoding::sink::{BufferTooShort, Sink};
use message::arrived::ArrivedEntry;
use message::text::PresenceText;
use message::update::Presence;
use state_vector::keyed::{Keyed, Renew};
use state_vector::standing::Standing;
use std::marker::Model;

// What a client says of itself, and the time of its last change. Its state is null, which is none, or a live text.
#[derive(Default, Drop)]
pub struct Record {
    pub(crate) presence: Presence,
    pub(crate) time: u64,
}

impl Model for Record {
    ghost use Rattle.awareness.specs.Record.{Record as Held, Writable};

    ghost Value = { Held };

    ghost view = { λ r. record { client = r.presence.client; clock = r.presence.clock; time = r.time; state = r.presence.state } };

    ghost invariant = { λ r. Writable (record { client = r.presence.client; clock = r.presence.clock; time = r.time; state = r.presence.state }) };
}

impl Record {
    // The record of an entry that came at a time.
    pub(crate) fn of(e: &ArrivedEntry<'_>, now: u64) -> Record
        ensures { result ≡ plain now e.now }
    {
        Record {
            presence: Presence::of(e),
            time: now,
        }
    }

    // A copy of the record, raised to a clock at a time.
    pub(crate) fn raised(&self, clock: u32, now: u64) -> Record
        ensures { result ≡ record { client = self.now.client; clock = clock; time = now; state = self.now.state } }
    {
        let mut presence = self.presence.copy();
        presence.set_clock(clock);
        Record {
            presence,
            time: now,
        }
    }

    // A copy of the record.
    pub fn copy(&self) -> Record
        ensures { result ≡ self.now }
    {
        Record {
            presence: self.presence.copy(),
            time: self.time,
        }
    }

    // Its clock.
    pub fn clock(&self) -> u32
        ensures { result ≡ self.now.clock }
    {
        self.presence.clock()
    }

    // The reading at which it was last inserted, replaced or raised.
    pub fn time(&self) -> u64
        ensures { result ≡ self.now.time }
    {
        self.time
    }

    // What it shows; all that it says can be written and read again.
    pub fn state(&self) -> Option<&PresenceText>
        ensures shows { option_copied result ≡ self.now.state }
        ensures writable { Writable self.now }
    {
        self.presence.state()
    }
}

impl Keyed for Record {
    ghost key = { λ r. r.client };

    fn client(&self) -> u64 {
        self.presence.client()
    }
}

// An entry that came at a time.
#[derive(Drop)]
pub(crate) struct Arrival<'a> {
    pub(crate) entry: &'a ArrivedEntry<'a>,
    pub(crate) time: u64,
}

impl Renew<Arrival<'_>> for Record {
    ghost made = { λ a. plain a.time a.entry.now };

    // As the record of the entry, made where a record lies.
    fn renew(&mut self, from: &Arrival<'_>) {
        // a look at its state brings in that the entry can be written
        let _state = from.entry.state();
        let Record { presence, time } = self;
        presence.renew(from.entry);
        *time = from.time;
    }
}

impl Standing for Record {
    ghost above = { above };

    ghost irreflexive = { Prim.search rules };

    ghost asymmetric = { Prim.search rules };

    ghost third = { Prim.search rules };

    // A higher clock stands above, and at the same clock null above a live text.
    fn stands_above(&self, held: &Record) -> bool {
        outranks(self.clock(), self.state().is_some(), held)
    }
}

// Whether a newcomer, at its clock and live or not, stands above the record held.
pub(crate) fn outranks(clock: u32, live: bool, held: &Record) -> bool
    ensures { (s : Option (List ℕ)) → is_some s ≡ live → result ≡ outranks clock s held.now.clock held.now.state }
{
    clock > held.clock() || clock == held.clock() && !live && held.state().is_some()
}

impl Entry for Record {
    ghost out = { λ r. presence_entry_out (entry_of r) };

    // As what it says of its client.
    fn write<S: Sink>(&self, sink: &mut S) -> Result<(), BufferTooShort> {
        self.presence.write(sink)
    }
}
