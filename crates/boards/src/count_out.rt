// Counts, written; and which of them whoever has a vector lacks.
ghost use Rattle.boards.specs.CountBoard.{as_vector, count_out, is_news};

use crate::count::Count;
use encoding::entries_out::{Choice, Entry};
use encoding::sink::{BufferTooShort, Sink};
use encoding::write::write_var;
use joined_tables::vector_of::InVector;
use state_vector::vector::{StateVector, VectorEntry};

// As a vector's entry is written; `Count` says why it is no such entry.
impl Entry for Count {
    ghost out = { count_out };

    // Its client, then itself.
    fn write<S: Sink>(&self, sink: &mut S) -> Result<(), BufferTooShort> {
        write_var(sink, self.client)?;
        write_var(sink, self.count)
    }
}

// The counts above those that a vector gives; a client that it lacks is at 0.
#[derive(Clone, Copy, Drop)]
pub struct NewCounts<'a> {
    pub since: &'a StateVector,
}

impl Choice<Count> for NewCounts<'_> {
    ghost takes = { λ c e. is_news c.since.now e };

    fn takes_entry(&self, e: &Count) -> bool {
        self.since.get(e.client).unwrap_or(0) < e.count
    }
}

impl InVector for Count {
    ghost tells = { as_vector };

    // Its count is its clock.
    fn vector_entry(&self) -> VectorEntry {
        VectorEntry {
            client: self.client,
            clock: self.count,
        }
    }
}
