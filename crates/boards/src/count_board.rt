// A board of counts: a grow-only counter for each of at most 64 clients.
ghost use Rattle.std.specs.Prelude.{◌≡◌, ◌^◌, ◌<◌, ◌≤◌, true, [], length, take, is_ok, nat_le, OnOk};
ghost use Rattle.encoding.specs.Entries.{entries};
ghost use Rattle.joined_tables.specs.Joined.{enter, gathered, sound};
ghost use Rattle.joined_tables.specs.Whole.{wholly};
ghost use Rattle.boards.specs.CountBoard.{client_of, outranks, keepable, count_in, board};

use crate::count::Count;
use encoding::entries::Entries;
use encoding::read::MAX_ENTRIES;
use state_vector::keyed::TableFull;
use state_vector::lent::LentTable;

// Counts that ascend by client, each of a client that can be written and at least 1. They lie at the front of an array, so that a board can be copied.
// Not seen as their list by a model: what a host keeps is within its limit by a law over every value, and of a list alone it does not hold.
#[derive(Clone, Copy)]
pub struct CountBoard {
    counts: [Count; MAX_ENTRIES],
    len: usize,
    ghost few: { len ≤ 64 },
    ghost sound: { sound client_of keepable (take len counts) ≡ true },
}

impl CountBoard {
    // A board without counts. No derived `Default`, which would promise nothing.
    pub fn empty() -> CountBoard
        ensures { take result.len result.counts ≡ [] }
    {
        CountBoard {
            counts: [Count::default(); MAX_ENTRIES],
            len: 0,
        }
    }

    // The counts, ascending by client.
    pub fn counts(&self) -> &[Count]
        ensures all { result.now ≡ take self.now.len self.now.counts }
        ensures few { length result.now ≤ 64 }
        ensures sound { sound client_of keepable result.now ≡ true }
    {
        &self.counts[0..self.len]
    }

    // A copy of the board, which cannot fail.
    pub fn copy(&self) -> CountBoard
        ensures { result ≡ self.now }
    {
        *self
    }

    // Brings one count in, where it is not 0; refused where its client is absent and no place is left.
    fn offer(&mut self, e: Count) -> Result<(), TableFull>
        requires known { e.client < 2 ^ 53 }
        requires narrow { e.count < 2 ^ 32 }
        ensures fits { is_ok result ≡ nat_le (length (enter client_of outranks keepable (board (take self.old.len self.old.counts)) e).0) 64 }
        ensures comes { OnOk result (board (take self.new.len self.new.counts) ≡ enter client_of outranks keepable (board (take self.old.len self.old.counts)) e) }
    {
        if e.count == 0 {
            return Ok(());
        }
        let mut table = LentTable {
            entries: &mut self.counts,
            len: self.len,
        };
        let answer = table.offer(e);
        self.len = table.len;
        match answer {
            Ok(_) => Ok(()),
            Err(full) => Err(full),
        }
    }

    // Joins an update that has been read; refused where a count found no place, and then those before it have come in.
    pub(crate) fn join(&mut self, update: Entries<'_, Count>) -> Result<(), TableFull>
        requires { is_ok (wholly (entries count_in update.left update.rest.now)) ≡ true }
        ensures fits { is_ok result ≡ nat_le (length (gathered client_of outranks keepable (board (take self.old.len self.old.counts)) (wholly (entries count_in update.entry.left update.entry.rest.now))).0) 64 }
        ensures joins { OnOk result (board (take self.new.len self.new.counts) ≡ gathered client_of outranks keepable (board (take self.old.len self.old.counts)) (wholly (entries count_in update.entry.left update.entry.rest.now))) }
    {
        for e in update {
            self.offer(e.unwrap())?;
        }
        Ok(())
    }
}
