// Why a document's host refuses an update.
ghost use Rattle.std.specs.Prelude.{◌≡◌};
ghost use Rattle.document.specs.declared.fault.DocumentFault.TheVariants.{Unreadable, TooLarge};
ghost use Rattle.document.specs.Taking.{document_number};

use encoding::fault::WireFault;
use state_vector::keyed::TableFull;
use thiserror::Error;

// What a host was asked to take and did not.
#[derive(Clone, Copy, Debug, PartialEq, Eq, Error)]
pub enum DocumentFault {
    // the bytes are no update, for the fault that reading met
    #[error("the update is unreadable: {0}")]
    Unreadable(WireFault),
    // the join would be larger than the host's limit
    #[error("the joined document is past its limit")]
    TooLarge,
}

impl DocumentFault {
    // The number under which the fault is known to users; code takes the fault itself. By a match, as one variant holds a fault.
    pub fn number(self) -> u8
        ensures { result ≡ document_number self }
    {
        match self {
            DocumentFault::Unreadable(_) => 12,
            DocumentFault::TooLarge => 13,
        }
    }
}

// Both by hand, since the derive's `From` would not say which fault it makes.
impl From<WireFault> for DocumentFault {
    ghost from_gives = { λ f r. r ≡ Unreadable f };

    // What reading met goes along whole.
    fn from(fault: WireFault) -> DocumentFault {
        DocumentFault::Unreadable(fault)
    }
}

impl From<TableFull> for DocumentFault {
    ghost from_gives = { λ _ r. r ≡ TooLarge };

    // A document that is a table is too large where the table is full.
    fn from(_full: TableFull) -> Self {
        Self::TooLarge
    }
}
