// The text that wins where an entry meets the record of its client.
ghost use Rattle.std.specs.Prelude.{◌≡◌, ℕ, ◌⊎◌};
ghost use Rattle.std.specs.Option.{option_copied};
ghost use Rattle.awareness.specs.Taking.{met};

use crate::awareness::change_by;
use crate::change::Change;
use crate::record::Record;
use message::arrived::ArrivedEntry;
use message::text::PresenceText;

// What a client shows after an entry of its own met what is held of it: as a part of the record's text or of the entry's, and none where null wins.
pub fn winning_text<'a>(own: u64, held: &'a Record, e: &ArrivedEntry<'a>) -> Option<&'a [u8]>
    ensures shows { (now : ℕ) → option_copied result ≡ (met own now held.now e.now).state }
    ensures of_the_two { (option_copied result ≡ held.now.state) ⊎ (option_copied result ≡ e.now.state) }
{
    match change_by(own, Some(held), e) {
        Change::Kept | Change::Raised => held.state().map(PresenceText::as_bytes),
        _ => e.state(),
    }
}
