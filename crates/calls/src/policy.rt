// Policies: who decides on auth and custom messages.
ghost use Rattle.std.specs.Prelude.{◌≡◌, Bool, if◌then◌else◌, Ok, Err};
ghost use Rattle.std.specs.Option.{option_copied};
ghost use Rattle.message.specs.Message.{Said, custom};
ghost use Rattle.calls.specs.declared.fault.PolicyFault.TheVariants.{PermissionDenied, Unsupported};
ghost use Rattle.calls.specs.Policies.{auth_of, plain_accepts, ranges_accept, noted};

use crate::fault::PolicyFault;

// Is asked of each auth and custom message; its verdicts stay the same however often it is asked.
pub trait Policy {
    // whether it accepts the message
    ghost accepts: { Self → Said → Bool };

    // Whether an auth message is accepted: granted, or denied for a reason.
    fn auth(&mut self, reason: Option<&[u8]>) -> Result<(), PolicyFault>
        ensures answer { result ≡ (if accepts self.old (auth_of (option_copied reason.entry)) then Ok tt else Err PermissionDenied) }
        ensures unchanged { (m : Said) → accepts self.new m ≡ accepts self.old m };

    // Whether a custom message is accepted.
    fn custom(&mut self, tag: u8, part: &[u8]) -> Result<(), PolicyFault>
        ensures answer { result ≡ (if accepts self.old (custom tag part.now) then Ok tt else Err Unsupported) }
        ensures unchanged { (m : Said) → accepts self.new m ≡ accepts self.old m };
}

// Turns down each denial and each custom message.
#[derive(Clone, Copy, Debug, PartialEq, Eq)]
pub struct DefaultPolicy;

impl Policy for DefaultPolicy {
    ghost accepts = { λ _ m. plain_accepts m };

    // A grant is accepted.
    fn auth(&mut self, reason: Option<&[u8]>) -> Result<(), PolicyFault> {
        match reason {
            None => Ok(()),
            Some(_) => Err(PolicyFault::PermissionDenied),
        }
    }

    // No custom message is.
    fn custom(&mut self, _tag: u8, _data: &[u8]) -> Result<(), PolicyFault> {
        Err(PolicyFault::Unsupported)
    }
}

// Accepts custom messages with tags of a range besides, and notes the latest.
#[derive(Clone, Copy, Debug, PartialEq, Eq)]
pub struct TagRanges {
    latest: Option<u8>,
}

impl TagRanges {
    // Nothing is noted yet.
    pub fn new() -> TagRanges
        ensures { result.latest ≡ None }
    {
        TagRanges { latest: None }
    }

    // The tag of the latest custom message that was accepted.
    pub fn latest(&self) -> Option<u8>
        ensures { result ≡ self.now.latest }
    {
        self.latest
    }
}

impl Policy for TagRanges {
    ghost accepts = { λ _ m. ranges_accept m };

    // As by default.
    fn auth(&mut self, reason: Option<&[u8]>) -> Result<(), PolicyFault>
        ensures answer { result ≡ (if ranges_accept (auth_of (option_copied reason.entry)) then Ok tt else Err PermissionDenied) }
        ensures note { self.new.latest ≡ self.old.latest }
    {
        DefaultPolicy.auth(reason)
    }

    // Tags 16 to 31.
    fn custom(&mut self, tag: u8, part: &[u8]) -> Result<(), PolicyFault>
        ensures answer { result ≡ (if ranges_accept (custom tag part.now) then Ok tt else Err Unsupported) }
        ensures note { self.new.latest ≡ noted tag self.old.latest }
    {
        match tag {
            16..=31 => {
                self.latest = Some(tag);
                Ok(())
            }
            _ => Err(PolicyFault::Unsupported),
        }
    }
}
