// Why a call of presence is refused.
ghost use Rattle.std.specs.Prelude.{◌≡◌};
ghost use Rattle.awareness.specs.declared.fault.AwarenessFault.TheVariants.{Wire, Presence, Short};
ghost use Rattle.awareness.specs.declared.fault.PresenceFault.TheVariants.{TooManyClients};
ghost use Rattle.awareness.specs.Faults.{presence_number, awareness_number};

use encoding::fault::WireFault;
use encoding::sink::BufferTooShort;
use state_vector::keyed::TableFull;
use thiserror::Error;

// What the table of records cannot do.
#[derive(Clone, Copy, Debug, PartialEq, Eq, Error)]
pub enum PresenceFault {
    // more than 64 clients would be held
    #[error("more than 64 clients would be held")]
    TooManyClients = 7,
    // a clock that has to rise is at its end
    #[error("a clock that has to rise is at its end")]
    ClockAtEnd = 8,
    // a client is not held
    #[error("a client is not known")]
    ClientNotFound = 9,
}

impl PresenceFault {
    // The number under which the fault is known to users; code takes the fault itself.
    pub fn number(self) -> u8
        ensures { result ≡ presence_number self }
    {
        self as u8
    }
}

// By hand, as clauses name the fault that `?` makes.
impl From<TableFull> for PresenceFault {
    ghost from_gives = { λ _ r. r ≡ TooManyClients };

    // A full table has no place for one client more.
    fn from(_full: TableFull) -> PresenceFault {
        PresenceFault::TooManyClients
    }
}

// Why a call is refused; it then has changed nothing.
#[derive(Clone, Copy, Debug, PartialEq, Eq, Error)]
pub enum AwarenessFault {
    // its bytes or arguments break a layout or a limit
    #[error(transparent)]
    Wire(WireFault),
    // the table of records cannot do it
    #[error(transparent)]
    Presence(PresenceFault),
    // the caller's buffer or lists are too short
    #[error("the bytes do not fit the buffer")]
    Short,
}

impl AwarenessFault {
    // The number under which the fault is known to users.
    pub fn number(self) -> u8
        ensures { result ≡ awareness_number self }
    {
        match self {
            AwarenessFault::Wire(fault) => fault.number(),
            AwarenessFault::Presence(fault) => fault.number(),
            AwarenessFault::Short => 14,
        }
    }
}

// By hand, as the next two: clauses name the fault that `?` makes.
impl From<WireFault> for AwarenessFault {
    ghost from_gives = { λ f r. r ≡ Wire f };

    // A fault of the bytes goes along whole.
    fn from(fault: WireFault) -> AwarenessFault {
        AwarenessFault::Wire(fault)
    }
}

impl From<PresenceFault> for AwarenessFault {
    ghost from_gives = { λ f r. r ≡ Presence f };

    // So does one of the table.
    fn from(fault: PresenceFault) -> AwarenessFault {
        AwarenessFault::Presence(fault)
    }
}

impl From<BufferTooShort> for AwarenessFault {
    ghost from_gives = { λ _ r. r ≡ Short };

    // What does not fit is not written.
    fn from(_short: BufferTooShort) -> AwarenessFault {
        AwarenessFault::Short
    }
}
