// A presence update that has been read to its end: its entries are walked through later, and no text is judged twice.
ghost use Rattle.std.specs.Iterator.{item_count};
ghost use Rattle.std.specs.Prelude.{◌≡◌, ◌≤◌, IfOk, length, Ok, is_ok, true};
ghost use Rattle.std.specs.Option.{option_copied};
ghost use Rattle.encoding.specs.Entries.{entries};
ghost use Rattle.encoding.specs.Reading.{read_as};
ghost use Rattle.message.specs.Arrived.{passed_entry, due, alone, single, Walks};
ghost use Rattle.message.specs.Presence.{entry_is, presence_entry, presence};
ghost use Rattle.message.specs.Writing.{Readable};

use crate::presence::{PresenceEntry, state_of};
use encoding::entries::{Decode, skip_entries};
use encoding::fault::WireFault;
use encoding::read::{read_buf, read_client_id, read_count};
use encoding::var_uint::read_var;
use std::marker::Model;

// An entry that has been read: its id, its clock and its text are within their limits.
#[derive(Debug, Drop)]
pub struct ArrivedEntry<'a> {
    entry: PresenceEntry<'a>,
}

impl<'a> Model for ArrivedEntry<'a> {
    ghost use Rattle.message.specs.Presence.{Entry, entry_is};
    ghost use Rattle.message.specs.Writing.{Readable};

    ghost Value = { Entry };

    ghost view = { λ e. entry_is e.entry };

    ghost invariant = { λ e. Readable (entry_is e.entry) };
}

impl<'a> ArrivedEntry<'a> {
    #[inline(always)]
    #[tactic(auto, unfolding(crate::specs::Presence::presence), using(crate::proofs::Arrivals::not_single))]
    // The entry of an update that has no other, which most have not; none where the bytes hold no such update.
    pub fn single(s: &'a [u8]) -> Option<ArrivedEntry<'a>>
        ensures { result ≡ single (presence s.now) }
    {
        let (count, bytes) = read_count::<u64>(s).ok()?;
        if count != 1 {
            return None;
        }
        let (entry, _rest) = PresenceEntry::read(bytes).ok()?;
        Some(ArrivedEntry { entry })
    }

    // Whose entry it is.
    pub fn client(&self) -> u64
        ensures { result ≡ self.now.client }
    {
        self.entry.client
    }

    // Its clock.
    pub fn clock(&self) -> u32
        ensures { result ≡ self.now.clock }
    {
        self.entry.clock
    }

    // What it shows: none, or a text that is a part of the input; all that it says can be written.
    pub fn state(&self) -> Option<&'a [u8]>
        ensures shows { option_copied result ≡ self.now.state }
        ensures readable { Readable self.now }
    {
        self.entry.state
    }
}

// The first entry, whose text has been judged before, and the bytes after it.
fn read_passed(s: &[u8]) -> Result<(PresenceEntry<'_>, &[u8]), WireFault>
    ensures { read_as entry_is result ≡ passed_entry s.now }
{
    let (client, rest) = read_client_id(s)?;
    let (clock, rest) = read_var::<u32>(rest)?;
    let (text, rest) = read_buf(rest)?;
    let entry = PresenceEntry {
        client,
        clock,
        state: state_of(text),
    };
    Ok((entry, rest))
}

// So many entries, in the bytes that they begin. A clause sees the entries.
#[derive(Debug, Drop)]
pub struct ArrivedUpdate<'a> {
    count: usize,
    bytes: &'a [u8],
}

impl<'a> Model for ArrivedUpdate<'a> {
    ghost use Rattle.std.specs.Prelude.{◌≡◌, ◌≤◌, true, is_ok, List};
    ghost use Rattle.encoding.specs.Entries.{entries};
    ghost use Rattle.message.specs.Arrived.{due};
    ghost use Rattle.message.specs.Presence.{Entry, presence_entry};

    ghost Value = { List Entry };

    ghost view = { λ u. due u.count u.bytes.now };

    ghost invariant = { λ u. (is_ok (entries presence_entry u.count u.bytes.now) ≡ true) × (u.count ≤ 64) };
}

impl<'a> ArrivedUpdate<'a> {
    #[tactic(auto, unfolding(crate::specs::Presence::presence), using(crate::proofs::Arrivals::read_past, crate::proofs::Arrivals::fault_past))]
    // The update that the bytes begin with, read to its end; bytes after it are not looked at.
    pub fn read(s: &'a [u8]) -> Result<ArrivedUpdate<'a>, WireFault>
        ensures reads { result ≡ alone (presence s.now) }
        ensures few { IfOk result (λ es. length es ≤ 64) }
    {
        let (count, bytes) = read_count::<u64>(s)?;
        skip_entries::<PresenceEntry>(bytes, count)?;
        Ok(ArrivedUpdate { count, bytes })
    }

    // How many entries it has.
    pub fn len(&self) -> usize
        ensures count { result ≡ length self.now }
        ensures few { result ≤ 64 }
    {
        self.count
    }

    // A walk through its entries.
    pub fn iter(&self) -> ArrivedEntries<'a>
        ensures { result ≡ self.now }
    {
        ArrivedEntries {
            left: self.count,
            rest: self.bytes,
        }
    }
}

// A walk through the entries of an update. A clause sees those that are still to come.
#[derive(Debug, Drop)]
pub struct ArrivedEntries<'a> {
    left: usize,
    rest: &'a [u8],
}

impl<'a> Model for ArrivedEntries<'a> {
    ghost use Rattle.std.specs.Prelude.{◌≡◌, true, is_ok, List};
    ghost use Rattle.encoding.specs.Entries.{entries};
    ghost use Rattle.message.specs.Arrived.{due};
    ghost use Rattle.message.specs.Presence.{Entry, presence_entry};

    ghost Value = { List Entry };

    ghost view = { λ w. due w.left w.rest.now };

    ghost invariant = { λ w. is_ok (entries presence_entry w.left w.rest.now) ≡ true };
}

impl<'a> Iterator for ArrivedEntries<'a> {
    type Item = ArrivedEntry<'a>;

    ghost next_gives = { Walks };

    ghost remaining = { item_count (λ es. es) };

    // The next entry.
    fn next(&mut self) -> Option<ArrivedEntry<'a>> {
        if self.left == 0 {
            return None;
        }
        let (entry, rest) = read_passed(self.rest).unwrap();
        self.left -= 1;
        self.rest = rest;
        Some(ArrivedEntry { entry })
    }
}
