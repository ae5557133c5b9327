// State vectors: how far each client's changes are known.
ghost use Rattle.std.specs.Prelude.{◌≡◌, ◌^◌, ◌<◌, ◌≤◌, true, [], length, IfOk};
ghost use Rattle.encoding.specs.Entries.{verdict};
ghost use Rattle.encoding.specs.Reading.{read};
ghost use Rattle.state_vector.specs.declared.vector.VectorEntry.{VectorEntry};
ghost use Rattle.state_vector.specs.Tables.{ascends, all_below};
ghost use Rattle.state_vector.specs.Vector.{client_of, vector_entry, vector_entries, vector, clock_of, takes, taken};

use crate::keyed::{Keyed, Table};
use encoding::entries::{Decode, Entries, check_counted};
use encoding::fault::WireFault;
use encoding::read::{MAX_ENTRIES, check_client_id, read_client_id};
use encoding::var_uint::read_var;
use std::marker::Model;

// A client, and the clock up to which its changes are known.
#[derive(Clone, Copy, Debug, Default, PartialEq, Eq)]
pub struct VectorEntry {
    pub client: u64,
    pub clock: u32,
}

impl Keyed for VectorEntry {
    ghost key = { λ e. e.client };

    fn client(&self) -> u64 {
        self.client
    }
}

impl<'a> Decode<'a> for VectorEntry {
    ghost item = { VectorEntry };

    ghost says = { λ e. e };

    ghost holds = { λ e. e.client < 2 ^ 53 };

    ghost entry = { vector_entry };

    // A client id, then a clock.
    fn read(s: &'a [u8]) -> Result<(VectorEntry, &'a [u8]), WireFault> {
        let (client, rest) = read_client_id(s)?;
        let (clock, rest) = read_var::<u32>(rest)?;
        Ok((VectorEntry { client, clock }, rest))
    }
}

// At most 64 entries that ascend by client id, each with an id that can be written.
#[derive(Drop)]
pub struct StateVector {
    table: Table<VectorEntry, MAX_ENTRIES>,
}

impl Model for StateVector {
    ghost use Rattle.std.specs.Prelude.{◌≡◌, ◌^◌, true, List};
    ghost use Rattle.state_vector.specs.declared.vector.VectorEntry.{VectorEntry};
    ghost use Rattle.state_vector.specs.Tables.{all_below};
    ghost use Rattle.state_vector.specs.Vector.{client_of};

    ghost Value = { List VectorEntry };

    ghost view = { λ v. v.table };

    ghost invariant = { λ v. (all_below client_of (2 ^ 53) v.table ≡ true) × (all_below (λ e. e.clock) (2 ^ 32) v.table ≡ true) };
}

impl StateVector {
    // A vector that knows no client. No derived `Default`, which would promise nothing.
    pub fn new() -> StateVector
        ensures { result ≡ [] }
    {
        StateVector {
            table: Table::new(),
        }
    }

    // The entries, ascending by client id.
    pub fn entries(&self) -> &[VectorEntry]
        ensures all { result.now ≡ self.now }
        ensures few { length result.now ≤ 64 }
        ensures ascends { ascends client_of result.now ≡ true }
        ensures known { all_below client_of (2 ^ 53) result.now ≡ true }
        ensures narrow { all_below (λ e. e.clock) (2 ^ 32) result.now ≡ true }
    {
        self.table.entries()
    }

    // How many clients it knows.
    pub fn len(&self) -> usize
        ensures count { result ≡ length self.now }
        ensures few { result ≤ 64 }
    {
        self.table.len()
    }

    // The client's clock; none where the vector does not know the client.
    pub fn get(&self, client: u64) -> Option<u32>
        ensures { result ≡ clock_of client self.now }
    {
        self.table.get(client).map(|e| e.clock)
    }

    // Brings an entry that takes the place of its client's. An id that cannot be written is refused, then a 65th client; either changes nothing.
    pub fn put(&mut self, e: VectorEntry) -> Result<(), WireFault>
        ensures answer { result ≡ takes self.old e }
        ensures used { self.new ≡ taken self.old e }
    {
        check_client_id(e.client)?;
        self.table.put(e)?;
        Ok(())
    }

    // A vector, read: a count, then so many entries, of which each takes the place of an earlier one of its client. What stands after them is ignored.
    pub fn read(s: &[u8]) -> Result<StateVector, WireFault>
        ensures { result ≡ vector s.now }
    {
        let entries = Entries::<VectorEntry>::read::<u32>(s)?;
        let mut v = StateVector::new();
        for e in entries {
            v.put(e?)?;
        }
        Ok(v)
    }
}

// Whether the bytes begin with a vector; nothing is built.
pub fn check_vector(s: &[u8]) -> Result<(), WireFault>
    ensures { result ≡ verdict (vector_entries s.now) }
{
    check_counted::<u32, VectorEntry>(s)
}
