// What a call tells.
ghost use Rattle.std.specs.Prelude.{◌≡◌, ◌==◌, if◌then◌else◌, Ok, Err};
ghost use Rattle.encoding.specs.Fault.{wire_number};
ghost use Rattle.calls.specs.declared.fault.Fault.TheVariants.{Wire};
ghost use Rattle.calls.specs.Faults.{of_awareness, of_writing};
ghost use Rattle.calls.specs.Refusals.{alone};

use crate::fault::Fault;
use awareness::fault::AwarenessFault;
use encoding::fault::WireFault;
use encoding::write::WriteFault;

// A handle that met no refusal.
#[derive(Clone, Copy, Debug, PartialEq, Eq)]
pub struct Handled {
    // how many messages are done
    pub messages: usize,
    // the place of the first byte that is not done
    pub place: usize,
    // how many bytes the replies have
    pub replies: usize,
}

// A call that was refused: why, at which message counted from 0, at which byte that begins, and how many bytes of replies stand before it; the last three are 0 outside of handle.
#[derive(Clone, Copy, Debug, PartialEq, Eq)]
pub struct Refusal {
    pub fault: Fault,
    pub message: usize,
    pub place: usize,
    pub replies: usize,
}

impl Handled {
    // A refusal that leaves so much done.
    pub fn refused(self, fault: Fault) -> Refusal
        ensures { result ≡ record { fault = fault; message = self.messages; place = self.place; replies = self.replies } }
    {
        Refusal {
            fault,
            message: self.messages,
            place: self.place,
            replies: self.replies,
        }
    }

    // Where reading ended: a message that is cut short is none yet, and any other fault is that of a message.
    pub fn stopped(self, fault: WireFault) -> Result<Handled, Refusal>
        ensures { result ≡ (if wire_number fault == 2 then Ok self else Err (record { fault = Wire fault; message = self.messages; place = self.place; replies = self.replies })) }
    {
        match fault {
            WireFault::EndOfBuffer => Ok(self),
            _ => Err(self.refused(fault.into())),
        }
    }
}

// By hand, as the others: clauses name the refusal that `?` makes. Outside of handle a refusal stands at no message and no byte.
impl From<Fault> for Refusal {
    ghost from_gives = { λ f r. r ≡ alone f };

    fn from(fault: Fault) -> Refusal {
        Refusal {
            fault,
            message: 0,
            place: 0,
            replies: 0,
        }
    }
}

impl From<WireFault> for Refusal {
    ghost from_gives = { λ f r. r ≡ alone (Wire f) };

    fn from(fault: WireFault) -> Refusal {
        Refusal::from(Fault::Wire(fault))
    }
}

impl From<AwarenessFault> for Refusal {
    ghost from_gives = { λ f r. r ≡ alone (of_awareness f) };

    fn from(fault: AwarenessFault) -> Refusal {
        Refusal::from(Fault::from(fault))
    }
}

impl From<WriteFault> for Refusal {
    ghost from_gives = { λ f r. r ≡ alone (of_writing f) };

    fn from(fault: WriteFault) -> Refusal {
        Refusal::from(Fault::from(fault))
    }
}
