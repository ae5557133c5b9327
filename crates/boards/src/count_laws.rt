// What holds of count boards' updates, each the contract of a function.
ghost use Rattle.boards.specs.CountLaws.{CountUpdatesAreAsSpelt, CountExamples};

// Updates are read exactly as they are spelt, and what is written spells the counts that it was written from.
pub fn count_updates_are_as_spelt()
    ensures { CountUpdatesAreAsSpelt }
{}

// What a board sends for a vector, and each way to be no update, with its number.
pub fn count_examples_hold()
    ensures { CountExamples }
{}
