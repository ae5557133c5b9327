// A presence update to be written: its entries ascend by client, each client once.
ghost use Rattle.std.specs.Prelude.{◌≡◌, ◌≤◌, true, [], length, if◌then◌else◌, Ok, Err};
ghost use Rattle.encoding.specs.Fields.{presence_text};
ghost use Rattle.std.specs.List.{All};
ghost use Rattle.std.specs.Option.{option_copied};
ghost use Rattle.encoding.specs.declared.fault.WireFault.TheVariants.{TooManyEntries};
ghost use Rattle.state_vector.specs.Tables.{ascends, full, updated};
ghost use Rattle.message.specs.Owned.{owned_entry, state_text};
ghost use Rattle.message.specs.Presence.{entry_is};
ghost use Rattle.message.specs.Writing.{Readable};

use crate::arrived::ArrivedEntry;
use crate::owned::owned_state;
use crate::presence::PresenceEntry;
use crate::text::PresenceText;
use encoding::fault::WireFault;
use encoding::read::{MAX_ENTRIES, check_client_id};
use state_vector::keyed::{Keyed, find};
use state_vector::lent::{insert, replace};
use std::marker::Model;

// What one client says of itself, with an id that can be written.
#[derive(Clone, Copy, Default)]
pub struct Presence {
    client: u64,
    clock: u32,
    state: Option<PresenceText>,
}

impl Model for Presence {
    ghost use Rattle.message.specs.Presence.{Entry};
    ghost use Rattle.message.specs.Writing.{Readable};

    ghost Value = { Entry };

    ghost view = { λ p. record { client = p.client; clock = p.clock; state = p.state } };

    ghost invariant = { λ p. Readable (record { client = p.client; clock = p.clock; state = p.state }) };

    ghost inverse = { λ e. record { client = e.client; clock = e.clock; state = e.state } };
}

// A state becomes a copy of one that has been judged; a text goes where the text held lies.
fn renew_state(state: &mut Option<PresenceText>, text: Option<&[u8]>)
    requires { presence_text (state_text (option_copied text)) ≡ Ok tt }
    ensures { state.new ≡ option_copied text.entry }
{
    match (state.as_mut(), text) {
        (Some(held), Some(text)) => held.renew(text),
        (None, Some(text)) => *state = Some(PresenceText::passed(text)),
        (_, None) => *state = None,
    }
}

impl Presence {
    // A copy of an entry that borrows its text: its id is judged, then its text.
    #[tactic(auto, using(crate::proofs::Sound::owned_passes))]
    pub fn new(e: PresenceEntry<'_>) -> Result<Presence, WireFault>
        ensures { result ≡ owned_entry (entry_is e.entry) }
    {
        check_client_id(e.client)?;
        let state = owned_state(e.state)?;
        Ok(Presence {
            client: e.client,
            clock: e.clock,
            state,
        })
    }

    // A copy of an entry that has been read and so was judged, which cannot fail.
    pub fn of(e: &ArrivedEntry<'_>) -> Presence
        ensures { result ≡ e.now }
    {
        let state = match e.state() {
            None => None,
            Some(text) => Some(PresenceText::passed(text)),
        };
        Presence {
            client: e.client(),
            clock: e.clock(),
            state,
        }
    }

    // Becomes a copy of an entry that has been read, where it lies.
    pub fn renew(&mut self, e: &ArrivedEntry<'_>)
        ensures { self.new ≡ e.now }
    {
        let Presence {
            client,
            clock,
            state,
        } = self;
        *client = e.client();
        *clock = e.clock();
        renew_state(state, e.state());
    }

    // A copy of what it says, which cannot fail; as `PresenceText::copy`.
    pub fn copy(&self) -> Presence
        ensures { result ≡ self.now }
    {
        *self
    }

    // Its clock; all that it says can be read again.
    pub fn clock(&self) -> u32
        ensures value { result ≡ self.now.clock }
        ensures readable { Readable self.now }
    {
        self.clock
    }

    // Says the same at another clock.
    pub fn set_clock(&mut self, clock: u32)
        ensures { self.new ≡ record { client = self.old.client; clock = clock; state = self.old.state } }
    {
        let Presence { clock: held, .. } = self;
        *held = clock;
    }

    // What it shows; all that it says can be read again.
    pub fn state(&self) -> Option<&PresenceText>
        ensures shows { option_copied result ≡ self.now.state }
        ensures readable { Readable self.now }
    {
        self.state.as_ref()
    }
}

impl Keyed for Presence {
    ghost key = { λ e. e.client };

    // Its client id; all that it says can be read again.
    fn client(&self) -> u64
        ensures value { result ≡ self.now.client }
        ensures readable { Readable self.now }
    {
        self.client
    }
}

// At most 64 entries that ascend by client id, in places of its own: an empty update is made for each message, and is quick to make so.
#[derive(Drop)]
pub struct PresenceUpdate {
    entries: [Presence; MAX_ENTRIES],
    len: usize,
}

impl Model for PresenceUpdate {
    ghost use Rattle.std.specs.Prelude.{◌≡◌, ◌≤◌, true, List, take};
    ghost use Rattle.std.specs.List.{All};
    ghost use Rattle.state_vector.specs.Tables.{ascends};
    ghost use Rattle.message.specs.Presence.{Entry};
    ghost use Rattle.message.specs.Writing.{Readable};

    ghost Value = { List Entry };

    ghost view = { λ u. take u.len u.entries };

    ghost invariant = { λ u. (u.len ≤ 64) × (ascends (λ e. e.client) (take u.len u.entries) ≡ true) × All Readable (take u.len u.entries) };
}

impl PresenceUpdate {
    // An update without entries. No derived `Default`, which would promise nothing.
    pub fn new() -> PresenceUpdate
        ensures { result ≡ [] }
    {
        let none = Presence {
            client: 0,
            clock: 0,
            state: None,
        };
        PresenceUpdate {
            entries: [none; MAX_ENTRIES],
            len: 0,
        }
    }

    // The entries, ascending by client id.
    pub fn entries(&self) -> &[Presence]
        ensures all { result.now ≡ self.now }
        ensures few { length result.now ≤ 64 }
        ensures ascends { ascends (λ e. e.client) result.now ≡ true }
        ensures readable { All Readable result.now }
    {
        let all = &self.entries[..];
        &all[0..self.len]
    }

    // Puts an entry in, in the place of an earlier one of its client; a 65th client is refused with nothing changed.
    pub fn put(&mut self, e: Presence) -> Result<(), WireFault>
        ensures answer { result ≡ (if full (λ e. e.client) 64 self.old e then Err TooManyEntries else Ok tt) }
        ensures used { self.new ≡ updated (λ e. e.client) 64 self.old e }
    {
        // a look at a field brings in what is true of every entry
        let _passed = &e.client;
        let at = find(self.entries(), e.client());
        match at {
            Ok(at) => {
                replace(&mut self.entries, self.len, at, e);
                Ok(())
            }
            Err(at) if self.len < MAX_ENTRIES => {
                insert(&mut self.entries, self.len, at, e);
                self.len += 1;
                Ok(())
            }
            Err(_) => Err(WireFault::TooManyEntries),
        }
    }
}
