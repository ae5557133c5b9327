// Why bytes are refused.
ghost use Rattle.std.specs.Prelude.{◌≡◌};
ghost use Rattle.encoding.specs.Fault.{wire_number};

use thiserror::Error;

// What is wrong with the bytes, or with a value given in their place.
#[derive(Clone, Copy, Debug, PartialEq, Eq, Error)]
pub enum WireFault {
    // a number goes on past its tenth byte, or is too large for its width
    #[error("a number goes on past its tenth byte or is past its width")]
    InvalidVarInt = 1,
    // the bytes end too soon
    #[error("the bytes end too soon")]
    EndOfBuffer = 2,
    // a text that is not UTF-8, or a value that the layout does not have
    #[error("a text is not UTF-8 or a value has no meaning")]
    UnexpectedValue = 3,
    // a client id from 2^53 on
    #[error("a client id is not below 2^53")]
    InvalidClientId = 4,
    // more than 64 entries are declared
    #[error("more than 64 entries are declared")]
    TooManyEntries = 5,
    // a presence text of more than 256 bytes, or a slot of more than 32
    #[error("a presence text has more than 256 bytes or a slot more than 32")]
    TextTooLong = 6,
}

impl WireFault {
    // The number under which the fault is known to users; code takes the fault itself.
    pub fn number(self) -> u8
        ensures { result ≡ wire_number self }
    {
        self as u8
    }
}
