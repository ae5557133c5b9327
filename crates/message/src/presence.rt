// Presence updates: what clients say of themselves.
ghost use Rattle.std.specs.Prelude.{◌≡◌};
ghost use Rattle.std.specs.Option.{option_copied};
ghost use Rattle.encoding.specs.Entries.{past, past_of, verdict};
ghost use Rattle.encoding.specs.Reading.{read, read_as};
ghost use Rattle.message.specs.Presence.{Entry, state_of, entry_is, presence_entry, presence};

use encoding::entries::{Decode, check_counted};
use encoding::fault::WireFault;
use encoding::read::{read_client_id, read_presence_text};
use encoding::var_uint::read_var;

// What one client says of itself; its state is none where it shows nothing more, or a text that is a part of the input.
#[derive(Clone, Copy, Debug)]
pub struct PresenceEntry<'a> {
    pub client: u64,
    pub clock: u32,
    pub state: Option<&'a [u8]>,
}

// A text that spells null is none.
pub fn state_of(text: &[u8]) -> Option<&[u8]>
    ensures { option_copied result ≡ state_of text.now }
{
    if text == b"null".as_slice() {
        None
    } else {
        Some(text)
    }
}

impl<'a> Decode<'a> for PresenceEntry<'a> {
    ghost item = { Entry };

    ghost says = { entry_is };

    ghost entry = { presence_entry };

    // A client id, a clock and a text.
    fn read(s: &'a [u8]) -> Result<(PresenceEntry<'a>, &'a [u8]), WireFault> {
        let (client, rest) = read_client_id(s)?;
        let (clock, rest) = read_var::<u32>(rest)?;
        let (text, rest) = read_presence_text(rest)?;
        let e = PresenceEntry {
            client,
            clock,
            state: state_of(text),
        };
        Ok((e, rest))
    }
}

// Whether the bytes begin with a presence update.
#[tactic(auto, unfolding(crate::specs::Presence::presence))]
pub fn check_presence(s: &[u8]) -> Result<(), WireFault>
    ensures { result ≡ verdict (presence s.now) }
{
    check_counted::<u64, PresenceEntry>(s)
}
