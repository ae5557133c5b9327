// What taking entries comes to: each the contract of a function.
ghost use Rattle.awareness.specs.Newest.{TablesHoldTheNewest, ListsTellWhatWasDone, OwnTextsStay, OwnClocksLead, TimesTellTheLastChange, WinnersAreStored};

// Entries taken into an empty table leave the newest of each other client.
#[tactic(auto, using(crate::proofs::Newest::tables_hold_the_newest))]
pub fn tables_hold_the_newest()
    ensures { TablesHoldTheNewest }
{}

// A client is in a list exactly when one of the entries, met in turn, did what the list tells.
#[tactic(auto, using(crate::proofs::Lists::lists_tell_what_was_done))]
pub fn lists_tell_what_was_done()
    ensures { ListsTellWhatWasDone }
{}

// No entry makes a live own text null.
#[tactic(auto, using(crate::proofs::Own::own_texts_stay))]
pub fn own_texts_stay()
    ensures { OwnTextsStay }
{}

// The own clock is as high as any that came for it, and above each null that came while a text was held.
#[tactic(auto, using(crate::proofs::Own::own_clocks_lead))]
pub fn own_clocks_lead()
    ensures { OwnClocksLead }
{}

// A record's time is that of the entries which touched it last.
#[tactic(auto, using(crate::proofs::Times::times_tell_the_last_change))]
pub fn times_tell_the_last_change()
    ensures { TimesTellTheLastChange }
{}

// What wins where an entry meets a record is what is held then.
#[tactic(auto, using(crate::proofs::Received::winners_are_stored))]
pub fn winners_are_stored()
    ensures { WinnersAreStored }
{}
