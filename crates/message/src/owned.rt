// What a client shows, as it is kept and written: nothing, or a text that has been judged and can be read again.
ghost use Rattle.std.specs.Prelude.{◌≡◌, ◌≤◌, length};
ghost use Rattle.std.specs.Option.{option_copied};
ghost use Rattle.message.specs.Owned.{owned_state, state_text};

use crate::text::PresenceText;
use encoding::fault::WireFault;

// A copy of a state that borrows its text.
pub fn owned_state(state: Option<&[u8]>) -> Result<Option<PresenceText>, WireFault>
    ensures { result ≡ owned_state (option_copied state.entry) }
{
    state.map(PresenceText::new).transpose()
}

// The text that says a state on the wire.
pub fn state_text(state: Option<&PresenceText>) -> &[u8]
    ensures says { result.now ≡ state_text (option_copied state.entry) }
    ensures short { length result.now ≤ 256 }
{
    match state {
        None => b"null",
        Some(text) => text.as_bytes(),
    }
}
