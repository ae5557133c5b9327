// The faults of all layers, under the numbers by which users know them.
ghost use Rattle.std.specs.Prelude.{◌≡◌};
ghost use Rattle.calls.specs.declared.fault.Fault.TheVariants.{Wire, Presence, Policy, Document, Buffer};
ghost use Rattle.calls.specs.Faults.{policy_number, fault_number, fault_layer, fault_wire, of_awareness, of_writing};

use awareness::fault::{AwarenessFault, PresenceFault};
use document::fault::DocumentFault;
use encoding::fault::WireFault;
use encoding::sink::BufferTooShort;
use encoding::write::WriteFault;
use thiserror::Error;

// What the policy turns down.
#[derive(Clone, Copy, Debug, PartialEq, Eq, Error)]
pub enum PolicyFault {
    // an auth message
    #[error("the policy denies permission")]
    PermissionDenied = 10,
    // a custom message
    #[error("the policy does not support the custom message")]
    Unsupported = 11,
}

impl PolicyFault {
    // The number under which the fault is known to users; code takes the fault itself.
    pub fn number(self) -> u8
        ensures { result ≡ policy_number self }
    {
        self as u8
    }
}

// The part of a hub that refuses.
#[derive(Clone, Copy, Debug, PartialEq, Eq)]
pub enum Layer {
    Wire,
    Presence,
    Policy,
    Document,
    Buffer,
}

// Why a call or a message is refused.
#[derive(Clone, Copy, Debug, PartialEq, Eq, Error)]
pub enum Fault {
    // its bytes or arguments break a layout or a limit
    #[error(transparent)]
    Wire(WireFault),
    // the table of records cannot do it
    #[error(transparent)]
    Presence(PresenceFault),
    // the policy turns it down
    #[error(transparent)]
    Policy(PolicyFault),
    // the document's host turns it down
    #[error(transparent)]
    Document(DocumentFault),
    // what is to be written does not fit the caller's buffer or lists, or its length 32 bits
    #[error("the bytes do not fit the buffer")]
    Buffer,
}

impl Fault {
    // The number under which the fault is known to users.
    pub fn number(self) -> u8
        ensures { result ≡ fault_number self }
    {
        match self {
            Fault::Wire(fault) => fault.number(),
            Fault::Presence(fault) => fault.number(),
            Fault::Policy(fault) => fault.number(),
            Fault::Document(fault) => fault.number(),
            Fault::Buffer => 14,
        }
    }

    // The part of the hub that refuses.
    pub fn layer(self) -> Layer
        ensures { result ≡ fault_layer self }
    {
        match self {
            Fault::Wire(_) => Layer::Wire,
            Fault::Presence(_) => Layer::Presence,
            Fault::Policy(_) => Layer::Policy,
            Fault::Document(_) => Layer::Document,
            Fault::Buffer => Layer::Buffer,
        }
    }

    // The number of the fault that the host met in an unreadable update.
    pub fn wire(self) -> Option<u8>
        ensures { result ≡ fault_wire self }
    {
        match self {
            Fault::Document(DocumentFault::Unreadable(fault)) => Some(fault.number()),
            _ => None,
        }
    }
}

// By hand, as the others: clauses name the fault that `?` makes.
impl From<WireFault> for Fault {
    ghost from_gives = { λ f r. r ≡ Wire f };

    fn from(fault: WireFault) -> Fault {
        Fault::Wire(fault)
    }
}

impl From<PresenceFault> for Fault {
    ghost from_gives = { λ f r. r ≡ Presence f };

    fn from(fault: PresenceFault) -> Fault {
        Fault::Presence(fault)
    }
}

impl From<PolicyFault> for Fault {
    ghost from_gives = { λ f r. r ≡ Policy f };

    fn from(fault: PolicyFault) -> Fault {
        Fault::Policy(fault)
    }
}

impl From<DocumentFault> for Fault {
    ghost from_gives = { λ f r. r ≡ Document f };

    // What the host met goes along whole.
    fn from(fault: DocumentFault) -> Fault {
        Fault::Document(fault)
    }
}

impl From<BufferTooShort> for Fault {
    ghost from_gives = { λ _ r. r ≡ Buffer };

    fn from(_short: BufferTooShort) -> Fault {
        Fault::Buffer
    }
}

impl From<AwarenessFault> for Fault {
    ghost from_gives = { λ f r. r ≡ of_awareness f };

    // The same fault, among those of all layers.
    fn from(fault: AwarenessFault) -> Fault {
        match fault {
            AwarenessFault::Wire(fault) => Fault::Wire(fault),
            AwarenessFault::Presence(fault) => Fault::Presence(fault),
            AwarenessFault::Short => Fault::Buffer,
        }
    }
}

impl From<WriteFault> for Fault {
    ghost from_gives = { λ f r. r ≡ of_writing f };

    // The same fault, among those of all layers.
    fn from(fault: WriteFault) -> Fault {
        match fault {
            WriteFault::Wire(fault) => Fault::Wire(fault),
            WriteFault::Short => Fault::Buffer,
        }
    }
}
