// Slots, written; and which of them whoever has a vector may lack.
ghost use Rattle.boards.specs.SlotBoard.{as_vector, slot_out, is_news};

use crate::slot::Slot;
use encoding::entries_out::{Choice, Entry};
use encoding::sink::{BufferTooShort, Sink};
use encoding::write::{write_buf, write_var};
use joined_tables::vector_of::InVector;
use state_vector::keyed::Keyed;
use state_vector::vector::{StateVector, VectorEntry};

impl Entry for Slot {
    ghost out = { slot_out };

    // Its client, its clock, then its bytes in a buffer.
    fn write<S: Sink>(&self, sink: &mut S) -> Result<(), BufferTooShort> {
        write_var(sink, self.client())?;
        write_var(sink, self.clock())?;
        write_buf(sink, self.bytes())
    }
}

// The slots that are not below the clocks of a vector; a client that it lacks is at 0.
#[derive(Clone, Copy, Drop)]
pub struct NewSlots<'a> {
    pub since: &'a StateVector,
}

impl Choice<Slot> for NewSlots<'_> {
    ghost takes = { λ c e. is_news c.since.now e };

    // At the same clock the other may have earlier bytes.
    fn takes_entry(&self, e: &Slot) -> bool {
        self.since.get(e.client()).unwrap_or(0) <= e.clock()
    }
}

impl InVector for Slot {
    ghost tells = { as_vector };

    // Without its bytes.
    fn vector_entry(&self) -> VectorEntry {
        VectorEntry {
            client: self.client(),
            clock: self.clock(),
        }
    }
}
