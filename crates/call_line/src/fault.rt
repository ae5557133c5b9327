// Why a line is no call.

use thiserror::Error;

// What is wrong with a line.
#[derive(Clone, Copy, Debug, PartialEq, Eq, Error)]
pub enum LineFault {
    // its first word names no call
    #[error("no call has this name; help lists them")]
    UnknownCall,
    // a number is wanted, and what stands there is none of 64 bits, or of 8 at a tag
    #[error("a decimal number is wanted, of 64 bits or, as a tag, of 8")]
    NotANumber,
    // a word is none of those that the call takes
    #[error("the call does not take this word")]
    UnknownWord,
    // words follow a call that takes none
    #[error("nothing may follow here")]
    WordsLeft,
}
