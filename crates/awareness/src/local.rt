// Records that the hub changes by itself: the own state set, and clients made null.
ghost use Rattle.std.specs.Prelude.{◌≡◌, ◌≤◌, ◌&&◌, ◌^◌, ◌<◌, true, length, is_none, is_ok, Ok};
ghost use Rattle.std.specs.Result.{result_and};
ghost use Rattle.awareness.specs.Calls.{judged, remove, set, ReadIf};
ghost use Rattle.awareness.specs.Record.{Record, client_of, held_of};
ghost use Rattle.awareness.specs.Taking.{next_clock, stored};
ghost use Rattle.state_vector.specs.Tables.{ascends};

use crate::awareness::Awareness;
use crate::clock::Clock;
use crate::fault::{AwarenessFault, PresenceFault};
use crate::record::Record;
use encoding::read::MAX_ENTRIES;
use message::presence::{PresenceEntry, state_of};
use message::update::Presence;

impl Awareness {
    // The clock after the one that is held of a client, where a place and that clock can be had.
    fn next_clock(&self, client: u64) -> Result<u32, PresenceFault>
        ensures answer { (r : Record) → r.client ≡ client → r.clock ≡ next_clock (held_of client self.now.rows) → result ≡ result_and (judged client (stored self.now.rows r)) (Ok (next_clock (held_of client self.now.rows))) }
        ensures room { (r : Record) → r.client ≡ client → is_ok result ≡ true → length (stored self.now.rows r) ≤ 64 }
    {
        // a look brings in that the records ascend and are few
        let _held = self.records();
        match self.table.get(client) {
            Some(held) => held.clock().checked_add(1).ok_or(PresenceFault::ClockAtEnd),
            None if self.table.len() < MAX_ENTRIES => Ok(1),
            None => Err(PresenceFault::TooManyClients),
        }
    }

    // Sets the own state: a text, which is null where it spells null.
    pub fn set_local_state_raw<C: Clock>(
        &mut self,
        text: &[u8],
        clock: &mut C,
    ) -> Result<(), AwarenessFault>
        ensures answer { result ≡ (set self.old.own (C.Clock.next clock.old) self.old.rows text.now).answer }
        ensures rows { self.new.rows ≡ (set self.old.own (C.Clock.next clock.old) self.old.rows text.now).rows }
        ensures own { self.new.own ≡ self.old.own }
        ensures clock { ReadIf C.Clock.leads (is_ok result) clock.old clock.new }
    {
        let mut presence = Presence::new(PresenceEntry {
            client: self.own,
            clock: 1,
            state: state_of(text),
        })?;
        let next = self.next_clock(self.own)?;
        presence.set_clock(next);
        let time = clock.now();
        self.store(Record { presence, time });
        Ok(())
    }

    // Makes a client null, held or not; an absent one is then held at clock 1.
    pub fn remove_state<C: Clock>(
        &mut self,
        client: u64,
        clock: &mut C,
    ) -> Result<(), AwarenessFault>
        ensures answer { result ≡ (remove client (C.Clock.next clock.old) self.old.rows).answer }
        ensures rows { self.new.rows ≡ (remove client (C.Clock.next clock.old) self.old.rows).rows }
        ensures own { self.new.own ≡ self.old.own }
        ensures clock { ReadIf C.Clock.leads (is_ok result && is_none (held_of client self.old.rows)) clock.old clock.new }
    {
        let mut presence = Presence::new(PresenceEntry {
            client,
            clock: 1,
            state: None,
        })?;
        let next = self.next_clock(client)?;
        presence.set_clock(next);
        let time = match self.table.get(client) {
            Some(held) => held.time(),
            None => clock.now(),
        };
        self.store(Record { presence, time });
        Ok(())
    }

    // Makes the own client null.
    pub fn clean_local_state<C: Clock>(&mut self, clock: &mut C) -> Result<(), AwarenessFault>
        ensures answer { result ≡ (remove self.old.own (C.Clock.next clock.old) self.old.rows).answer }
        ensures rows { self.new.rows ≡ (remove self.old.own (C.Clock.next clock.old) self.old.rows).rows }
        ensures own { self.new.own ≡ self.old.own }
        ensures clock { ReadIf C.Clock.leads (is_ok result && is_none (held_of self.old.own self.old.rows)) clock.old clock.new }
    {
        self.remove_state(self.own, clock)
    }
}
