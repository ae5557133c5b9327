// A board of slots: for each of at most 16 clients the bytes that it wrote last.
ghost use Rattle.std.specs.Prelude.{◌≡◌, ◌≤◌, true, [], length, is_ok, nat_le, OnOk};
ghost use Rattle.encoding.specs.Entries.{entries};
ghost use Rattle.joined_tables.specs.Joined.{enter, gathered, sound};
ghost use Rattle.joined_tables.specs.Whole.{wholly};
ghost use Rattle.boards.specs.SlotBoard.{client_of, outranks, keepable, slot_in, board};

use crate::slot::Slot;
use encoding::entries::Entries;
use state_vector::keyed::{Table, TableFull};

// At most this many clients have a slot.
pub const MAX_SLOTS: usize = 16;

// Slots that ascend by client.
// Not seen as their list by a model: what a host keeps is within its limit by a law over every value, and of a list alone it does not hold.
#[derive(Drop)]
pub struct SlotBoard {
    slots: Table<Slot, MAX_SLOTS>,
    ghost few: { length slots ≤ 16 },
    ghost sound: { sound client_of keepable slots ≡ true },
}

impl SlotBoard {
    // A board without slots. No derived `Default`, which would promise nothing.
    pub fn empty() -> SlotBoard
        ensures { result.slots ≡ [] }
    {
        SlotBoard {
            slots: Table::new(),
        }
    }

    // The slots, ascending by client.
    pub fn slots(&self) -> &[Slot]
        ensures all { result.now ≡ self.now.slots }
        ensures few { length result.now ≤ 16 }
        ensures sound { sound client_of keepable result.now ≡ true }
    {
        self.slots.entries()
    }

    // A copy of the board; as `Table::copy`, and no `Clone`.
    pub fn copy(&self) -> SlotBoard
        ensures { result.slots ≡ self.now.slots }
    {
        SlotBoard {
            slots: self.slots.copy(),
        }
    }

    // Brings one slot in; refused where its client is absent and no place is left.
    fn offer(&mut self, e: Slot) -> Result<(), TableFull>
        ensures fits { is_ok result ≡ nat_le (length (enter client_of outranks keepable (board self.old.slots) e).0) 16 }
        ensures comes { OnOk result (board self.new.slots ≡ enter client_of outranks keepable (board self.old.slots) e) }
    {
        // a look at its clock brings in that it may be held
        let _held = e.clock();
        self.slots.offer(e)?;
        Ok(())
    }

    // Joins an update that has been read; refused where a slot found no place, and then those before it have come in.
    pub(crate) fn join(&mut self, update: Entries<'_, Slot>) -> Result<(), TableFull>
        requires { is_ok (wholly (entries slot_in update.left update.rest.now)) ≡ true }
        ensures fits { is_ok result ≡ nat_le (length (gathered client_of outranks keepable (board self.old.slots) (wholly (entries slot_in update.entry.left update.entry.rest.now))).0) 16 }
        ensures joins { OnOk result (board self.new.slots ≡ gathered client_of outranks keepable (board self.old.slots) (wholly (entries slot_in update.entry.left update.entry.rest.now))) }
    {
        for e in update {
            self.offer(e.unwrap())?;
        }
        Ok(())
    }
}
