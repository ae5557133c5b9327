// The slot board as a host of documents.
ghost use Rattle.joined_tables.proofs.TableHosts.{table_within};
ghost use Rattle.boards.specs.SlotBoard.{slot_rows, slots, board};
ghost use Rattle.boards.specs.Slots.{slots_lawful};

use crate::slot::Slot;
use crate::slot_board::SlotBoard;
use crate::slot_out::NewSlots;
use document::fault::DocumentFault;
use document::host::DocumentHost;
use encoding::entries_out::Chosen;
use encoding::sink::BufferTooShort;
use joined_tables::update::read_update;
use joined_tables::vector_of::vector_of;
use state_vector::vector::StateVector;

impl DocumentHost for SlotBoard {
    const LIMIT: u32 = 16;

    ghost LIMIT = { 16 };

    ghost kind = { slots };

    ghost document = { λ b. board b.slots };

    ghost lawful = { slots_lawful };

    ghost within = { λ h. table_within slot_rows 16 h.slots h.few h.sound };

    fn new() -> SlotBoard {
        SlotBoard::empty()
    }

    // Each client at its slot's clock.
    fn vector(&self) -> StateVector {
        vector_of(self.slots())
    }

    fn update_len(&self, since: &StateVector) -> usize {
        // no `unwrap`: that the update fits is shown where it would not
        match Chosen::by(self.slots(), &NewSlots { since }).measure() {
            Ok(len) => len,
            Err(_) => unreachable(),
        }
    }

    fn update(&self, since: &StateVector, out: &mut [u8]) -> Result<usize, BufferTooShort> {
        Chosen::by(self.slots(), &NewSlots { since }).fill(out, 0)
    }

    // Joined in place where it surely fits; else a copy is joined first, and thrown away where the join is too large.
    fn take(&mut self, bytes: &[u8]) -> Result<(), DocumentFault> {
        let update = read_update::<Slot>(bytes)?;
        if self.slots().len() + update.left <= Self::LIMIT as usize {
            self.join(update).unwrap();
            return Ok(());
        }
        let mut joined = self.copy();
        joined.join(update)?;
        *self = joined;
        Ok(())
    }
}
