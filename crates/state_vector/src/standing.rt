// What stands above what: a newcomer takes the place of the entry held exactly when it stands above it.
ghost use Rattle.std.specs.Prelude.{◌≡◌, Bool, true, false, ◌||◌};
ghost use Rattle.state_vector.specs.Tables.{offered, outcome};

use crate::keyed::{Keyed, Outcome, Table, TableFull};

// An entry that stands above another of its client, or does not.
pub trait Standing: Keyed {
    // the first stands above the second
    ghost above: { Self → Self → Bool };

    // Whether the newcomer stands above the entry held.
    fn stands_above(&self, held: &Self) -> bool
        ensures { result ≡ above self.now held.now };

    // no entry stands above itself
    ghost irreflexive: { (x : Self) → above x x ≡ false };

    // no two stand above each other
    ghost asymmetric: { (x y : Self) → above x y ≡ true → above y x ≡ false };

    // where one stands above another, every third is below the first or above the second
    ghost third: { (x y z : Self) → above x y ≡ true → (above x z || above z y) ≡ true };
}

impl<E: Standing + Drop, const N: usize> Table<E, N> {
    // Offers an entry: inserted where its client is absent, it replaces the one held only if it stands above it; with no place left nothing changes.
    pub fn offer(&mut self, e: E) -> Result<Outcome, TableFull>
        ensures answer { result ≡ outcome E.Keyed.key E.Standing.above N self.old e }
        ensures used { self.new ≡ offered E.Keyed.key E.Standing.above N self.old e }
    {
        self.bring(e, |e, held| e.stands_above(held))
    }
}
