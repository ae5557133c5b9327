// Updates written from the table of records: of some clients, or of all that are live.
ghost use Rattle.std.specs.Prelude.{◌≡◌, if◌then◌else◌, Ok, Err, filter};
ghost use Rattle.std.specs.Option.{option_copied};
ghost use Rattle.encoding.specs.TwoSinks.{Filled};
ghost use Rattle.awareness.specs.declared.fault.PresenceFault.TheVariants.{ClientNotFound};
ghost use Rattle.awareness.specs.Calls.{all_ids, all_known, has, listing, live_update, update_of, Written};
ghost use Rattle.awareness.specs.Record.{live};

use crate::awareness::Awareness;
use crate::fault::{AwarenessFault, PresenceFault};
use crate::record::Record;
use encoding::entries_out::{Choice, Chosen};
use encoding::fault::WireFault;
use encoding::read::{check_client_id, check_count};
use encoding::sink::BufferTooShort;
use state_vector::keyed::Keyed;

// The records of the clients given.
#[derive(Clone, Copy, Drop)]
struct Given<'a> {
    clients: &'a [u64],
}

impl Choice<Record> for Given<'_> {
    ghost takes = { λ c r. has c.clients.now r.client };

    fn takes_entry(&self, e: &Record) -> bool {
        self.clients.contains(&e.client())
    }
}

// The records that are live.
#[derive(Clone, Copy, Debug)]
pub struct LiveOnes;

impl Choice<Record> for LiveOnes {
    ghost takes = { λ _ r. live r };

    fn takes_entry(&self, e: &Record) -> bool {
        e.state().is_some()
    }
}

// Whether each of the clients has an id that can be written.
fn check_ids(clients: &[u64]) -> Result<(), WireFault>
    ensures { result ≡ all_ids clients.now }
{
    for client in clients {
        check_client_id(*client)?;
    }
    Ok(())
}

impl Awareness {
    // The records that are live, ascending by client.
    pub fn live(&self) -> Chosen<'_, Record, LiveOnes>
        ensures { result ≡ filter live self.now.rows }
    {
        Chosen::by(self.records(), &LiveOnes)
    }

    // Whether each of the clients is held.
    fn check_known(&self, clients: &[u64]) -> Result<(), PresenceFault>
        ensures { result ≡ (if all_known self.now.rows clients.now then Ok tt else Err ClientNotFound) }
    {
        if clients
            .iter()
            .all(|client| self.table.get(*client).is_some())
        {
            Ok(())
        } else {
            Err(PresenceFault::ClientNotFound)
        }
    }

    // The update of the clients given, ascending, each once, at the front of a buffer, and its length.
    pub fn update_with_clients(
        &self,
        clients: &[u64],
        out: &mut [u8],
    ) -> Result<usize, AwarenessFault>
        ensures { Written out.old (listing self.now.rows clients.now) result out.new }
    {
        check_count(clients.len() as u64)?;
        check_ids(clients)?;
        self.check_known(clients)?;
        let given = Given { clients };
        Ok(Chosen::by(self.records(), &given).fill(out, 0)?)
    }

    // The update of all live records at the front of a buffer, and its length.
    pub fn update(&self, out: &mut [u8]) -> Result<usize, BufferTooShort>
        ensures { Filled out.old 0 (live_update self.now.rows) result out.new }
    {
        self.live().fill(out, 0)
    }
}
