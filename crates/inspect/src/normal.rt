// Messages in their shortest form: the bytes that a writer gives them.
ghost use Rattle.std.specs.Prelude.{◌≡◌};
ghost use Rattle.inspect.specs.declared.normal.NoForm.TheVariants.{Unread};

use encoding::entries::Entries;
use encoding::fault::WireFault;
use encoding::write::WriteFault;
use message::message::Message;
use message::presence::PresenceEntry;
use message::update::{Presence, PresenceUpdate};
use message::write::{Draft, write};
use state_vector::keyed::look_up;
use state_vector::vector::StateVector;
use thiserror::Error;

// Why a message has no normal form.
#[derive(Clone, Copy, Debug, Error)]
pub enum NoForm {
    // a client stands twice in a presence update
    #[error("client {0} stands twice")]
    Twice(u64),
    // a part that cannot be read
    #[error("{0}")]
    Unread(WireFault),
    // more bytes than were received
    #[error("it would have more bytes than were received")]
    Long,
}

// By hand, since a derived `From` does not say which fault it makes.
impl From<WireFault> for NoForm {
    ghost from_gives = { λ f r. r ≡ Unread f };

    // A part that cannot be read.
    fn from(fault: WireFault) -> NoForm {
        NoForm::Unread(fault)
    }
}

// By hand, since it makes either of two variants.
impl From<WriteFault> for NoForm {
    // A part that could not be read again, or too many bytes.
    fn from(fault: WriteFault) -> NoForm {
        match fault {
            WriteFault::Wire(fault) => NoForm::Unread(fault),
            WriteFault::Short => NoForm::Long,
        }
    }
}

// The entries of a presence update, each client once.
fn collect_presence(part: &[u8]) -> Result<PresenceUpdate, NoForm> {
    let mut update = PresenceUpdate::new();
    for entry in Entries::<PresenceEntry>::read::<u64>(part)? {
        let entry = entry?;
        if look_up(update.entries(), entry.client).is_some() {
            return Err(NoForm::Twice(entry.client));
        }
        update.put(Presence::new(entry)?)?;
    }
    Ok(update)
}

// The normal form of a message, at the front of a buffer, and how many bytes it has.
pub fn write_normal(m: Message, out: &mut [u8]) -> Result<usize, NoForm> {
    let len = match m {
        Message::SyncStep1(part) => write(&StateVector::read(part)?, out)?,
        Message::Awareness(part) => write(&collect_presence(part)?, out)?,
        Message::SyncStep2(part) => write(&Draft::SyncStep2(part), out)?,
        Message::Update(part) => write(&Draft::Update(part), out)?,
        Message::AuthDenied(reason) => write(&Draft::AuthDenied(reason), out)?,
        Message::AuthGranted => write(&Draft::AuthGranted, out)?,
        Message::AwarenessQuery => write(&Draft::AwarenessQuery, out)?,
        Message::Custom(tag, part) => write(&Draft::Custom(tag, part), out)?,
    };
    Ok(len)
}
