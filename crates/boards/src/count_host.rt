// The count board as a host of documents.
ghost use Rattle.std.specs.Prelude.{take};
ghost use Rattle.boards.specs.CountBoard.{counts, board};
ghost use Rattle.boards.specs.Counts.{counts_lawful, board_within};

use crate::count::Count;
use crate::count_board::CountBoard;
use crate::count_out::NewCounts;
use document::fault::DocumentFault;
use document::host::DocumentHost;
use encoding::entries_out::Chosen;
use encoding::sink::BufferTooShort;
use joined_tables::update::read_update;
use joined_tables::vector_of::vector_of;
use state_vector::vector::StateVector;

impl DocumentHost for CountBoard {
    const LIMIT: u32 = 64;

    ghost LIMIT = { 64 };

    ghost kind = { counts };

    ghost document = { λ b. board (take b.len b.counts) };

    ghost lawful = { counts_lawful };

    ghost within = { λ h. board_within h.len h.counts h.few h.sound };

    fn new() -> CountBoard {
        CountBoard::empty()
    }

    // Each client at its count.
    fn vector(&self) -> StateVector {
        vector_of(self.counts())
    }

    fn update_len(&self, since: &StateVector) -> usize {
        // no `unwrap`: that the update fits is shown where it would not
        match Chosen::by(self.counts(), &NewCounts { since }).measure() {
            Ok(len) => len,
            Err(_) => unreachable(),
        }
    }

    fn update(&self, since: &StateVector, out: &mut [u8]) -> Result<usize, BufferTooShort> {
        Chosen::by(self.counts(), &NewCounts { since }).fill(out, 0)
    }

    // Joined in place where it surely fits; else a copy is joined first, and thrown away where the join is too large.
    fn take(&mut self, bytes: &[u8]) -> Result<(), DocumentFault> {
        let update = read_update::<Count>(bytes)?;
        if self.counts().len() + update.left <= Self::LIMIT as usize {
            self.join(update).unwrap();
            return Ok(());
        }
        let mut joined = self.copy();
        joined.join(update)?;
        *self = joined;
        Ok(())
    }
}
