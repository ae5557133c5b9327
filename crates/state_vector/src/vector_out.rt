// State vectors, written.
ghost use Rattle.encoding.specs.Sink.{Put};
ghost use Rattle.state_vector.specs.VectorOut.{vector_entry_out, vector_out};

use crate::vector::{StateVector, VectorEntry};
use encoding::entries_out::{Chosen, Entry};
use encoding::sink::{BufferTooShort, Sink};
use encoding::write::write_var;

impl Entry for VectorEntry {
    ghost out = { vector_entry_out };

    // Its client, then its clock.
    fn write<S: Sink>(&self, sink: &mut S) -> Result<(), BufferTooShort> {
        write_var(sink, self.client)?;
        write_var(sink, self.clock)
    }
}

impl StateVector {
    // The count and the entries go in whole, or are refused and the sink stays as it is.
    pub fn write<S: Sink>(&self, sink: &mut S) -> Result<(), BufferTooShort>
        ensures { Put S.Sink.room S.Sink.step sink.old (vector_out self.now) result sink.new }
    {
        Chosen::all(self.entries()).write(sink)
    }
}
