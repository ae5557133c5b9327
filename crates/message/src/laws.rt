// The laws of messages, each the contract of a function.
ghost use Rattle.message.specs.Again.{ReadAndWrittenAgain};
ghost use Rattle.message.specs.ReadBack.{ExceptionsAreReal};
ghost use Rattle.message.specs.Spelling.{MessagesAreAsSpelt};

// What is read as a message is what the bytes spell, both ways.
pub fn messages_are_as_spelt()
    ensures { MessagesAreAsSpelt }
{}

// The two messages that do not read back as they were written.
pub fn exceptions_are_real()
    ensures { ExceptionsAreReal }
{}

// What was read, written again, is never longer and says the same.
pub fn read_and_written_again()
    ensures { ReadAndWrittenAgain }
{}
