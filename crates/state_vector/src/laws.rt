// The laws of tables and vectors, each the contract of a function.
ghost use Rattle.state_vector.specs.Tables.{ToldByLookUps, OffersKeepTheHighest, OrdersAgree, UpdatesKeepTheLatest};
ghost use Rattle.state_vector.specs.Vector.{VectorsHoldTheLast};
ghost use Rattle.state_vector.specs.VectorOut.{VectorsReadBack, VectorsNeverLonger};

use crate::keyed::Keyed;
use crate::standing::Standing;

// Two ascending tables whose look-ups agree for every client are equal.
#[tactic(auto, using(crate::proofs::Keys::same_rows))]
pub fn look_ups_tell_tables<E: Keyed>()
    ensures { ToldByLookUps E.Keyed.key }
{}

// After a row of offers to an empty table with room, under each client that was offered, and no other, something offered for it is held that nothing offered stands above.
#[tactic(auto, using(crate::proofs::Rows::offers_keep))]
pub fn offers_keep_the_highest<E: Standing>()
    ensures { OffersKeepTheHighest E.Keyed.key E.Standing.above }
{}

// Rows with the same entries in different orders, where entries of one client that tie are equal, leave equal tables.
pub fn orders_agree<E: Standing>()
    ensures { OrdersAgree E.Keyed.key E.Standing.above }
{}

// After a row of entries that always take their place, each client's last is held.
#[tactic(auto, using(crate::proofs::Rows::updates_keep))]
pub fn updates_keep_the_latest<E: Keyed>()
    ensures { UpdatesKeepTheLatest E.Keyed.key }
{}

// A vector that is read holds, for each client, the clock of its last entry in the bytes.
#[tactic(auto, using(crate::proofs::Vectors::hold_the_last))]
pub fn vectors_hold_the_last()
    ensures { VectorsHoldTheLast }
{}

// A vector that is written reads as the vector that it was written from.
#[tactic(auto, using(crate::proofs::VectorsOut::vectors_back))]
pub fn vectors_read_back()
    ensures { VectorsReadBack }
{}

// A vector that was read is never longer when it is written again, and reads as the same table.
#[tactic(auto, using(crate::proofs::VectorsOut::vectors_shrink))]
pub fn vectors_never_longer()
    ensures { VectorsNeverLonger }
{}
