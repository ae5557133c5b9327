// What holds of slot boards' updates, each the contract of a function.
ghost use Rattle.boards.specs.SlotLaws.{SlotUpdatesAreAsSpelt, SlotExamples};

// Updates are read exactly as they are spelt, and what is written spells the slots that it was written from.
pub fn slot_updates_are_as_spelt()
    ensures { SlotUpdatesAreAsSpelt }
{}

// What a board sends for a vector, and each way to be no update, with its number.
pub fn slot_examples_hold()
    ensures { SlotExamples }
{}
