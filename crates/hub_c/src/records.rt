// The calls of a hub that come to its records, and those that look at them.
ghost use Rattle.std.specs.Prelude.{◌≡◌, true, false, length, Ok};
ghost use Rattle.std.specs.Result.{result_and};
ghost use Rattle.awareness.specs.Changes.{is_added, is_updated, is_changed, is_removed, listed};
ghost use Rattle.awareness.specs.Summaries.{lengths_of, over};
ghost use Rattle.calls.specs.Refusals.{lifted};
ghost use Rattle.law.specs.Words.{Call};
ghost use Rattle.hub_c.specs.Told.{number_of, Answered, changes_told, shown_told, text_told, told_or, unmade};
ghost use Rattle.hub_c.specs.Pins.{lent, enough_in, applied_answer, settled, lists_over, Sound, Kept, Tells, Applied, Set, Removed, Cleaned, Shown, Listed};

use crate::presence_hub::PresenceHub;
use crate::tell::{UNMADE, number_of, tell_changes, tell_length, tell_shown};
use crate::told::{HubChanges, HubRecord};
use awareness::summary::{AwarenessUpdateSummary, ChangeLists};
use calls::answer::Refusal;
use product::ProductHub;

// An apply whose four lists come by themselves.
fn apply(
    hub: &mut ProductHub,
    update: &[u8],
    added: &mut [u64],
    updated: &mut [u64],
    changed: &mut [u64],
    removed: &mut [u64],
) -> Result<AwarenessUpdateSummary, Refusal>
    ensures answer { result ≡ lifted (result_and (settled hub.old update.now (lent added.old updated.old changed.old removed.old)).answer (Ok (lengths_of (settled hub.old update.now (lent added.old updated.old changed.old removed.old)).changes))) }
    ensures rows { hub.new.presence.rows ≡ (settled hub.old update.now (lent added.old updated.old changed.old removed.old)).rows }
    ensures added { added.new ≡ over (listed is_added (settled hub.old update.now (lent added.old updated.old changed.old removed.old)).changes) added.old }
    ensures updated { updated.new ≡ over (listed is_updated (settled hub.old update.now (lent added.old updated.old changed.old removed.old)).changes) updated.old }
    ensures changed { changed.new ≡ over (listed is_changed (settled hub.old update.now (lent added.old updated.old changed.old removed.old)).changes) changed.old }
    ensures removed { removed.new ≡ over (listed is_removed (settled hub.old update.now (lent added.old updated.old changed.old removed.old)).changes) removed.old }
    ensures kept { Kept hub.old hub.new }
    ensures law { Tells hub.old hub.new (Call.apply update.now (enough_in (lent added.old updated.old changed.old removed.old))) (applied_answer result (lists_over (settled hub.old update.now (lent added.old updated.old changed.old removed.old)) (lent added.old updated.old changed.old removed.old))) }
{
    let mut lists = ChangeLists {
        added,
        updated,
        changed,
        removed,
    };
    hub.apply(update, &mut lists)
}

// Takes a presence update, and lists the clients by what it did to them; each list needs 64 places.
#[unsafe(no_mangle)]
pub extern "C" fn presence_hub_apply(
    hub: &mut PresenceHub,
    update: &[u8],
    added: &mut [u64],
    updated: &mut [u64],
    changed: &mut [u64],
    removed: &mut [u64],
    told: &mut HubChanges,
) -> u8
    requires sound { Sound hub.old.made hub.old.size hub.old.place }
    ensures sound { Sound hub.new.made hub.new.size hub.new.place }
    ensures none { hub.old.made ≡ false → (result ≡ unmade) × (hub.new ≡ hub.old) × (told.new ≡ told.old) }
    ensures lists { hub.old.made ≡ false → (added.new ≡ added.old) × (updated.new ≡ updated.old) × (changed.new ≡ changed.old) × (removed.new ≡ removed.old) }
    ensures applied { hub.old.made ≡ true → Answered result (λ r. (told.new ≡ changes_told told.old r) × Applied hub.old.place.hub hub.new.place.hub update.now (lent added.old updated.old changed.old removed.old) (lent added.new updated.new changed.new removed.new) r) }
{
    if !hub.made {
        return UNMADE;
    }
    let answer = apply(hub.place.hub(), update, added, updated, changed, removed);
    tell_changes(answer, told)
}

// Sets the own state: a text, which is null where it spells null.
#[unsafe(no_mangle)]
pub extern "C" fn presence_hub_set(hub: &mut PresenceHub, text: &[u8]) -> u8
    requires sound { Sound hub.old.made hub.old.size hub.old.place }
    ensures sound { Sound hub.new.made hub.new.size hub.new.place }
    ensures none { hub.old.made ≡ false → (result ≡ unmade) × (hub.new ≡ hub.old) }
    ensures set { hub.old.made ≡ true → Answered result (Set hub.old.place.hub hub.new.place.hub text.now) }
{
    if !hub.made {
        return UNMADE;
    }
    number_of(hub.place.hub().set(text))
}

// Makes the own client null.
#[unsafe(no_mangle)]
pub extern "C" fn presence_hub_clean(hub: &mut PresenceHub) -> u8
    requires sound { Sound hub.old.made hub.old.size hub.old.place }
    ensures sound { Sound hub.new.made hub.new.size hub.new.place }
    ensures none { hub.old.made ≡ false → (result ≡ unmade) × (hub.new ≡ hub.old) }
    ensures cleaned { hub.old.made ≡ true → Answered result (Cleaned hub.old.place.hub hub.new.place.hub) }
{
    if !hub.made {
        return UNMADE;
    }
    number_of(hub.place.hub().clean())
}

// Makes a client null, held or not.
#[unsafe(no_mangle)]
pub extern "C" fn presence_hub_remove(hub: &mut PresenceHub, client: u64) -> u8
    requires sound { Sound hub.old.made hub.old.size hub.old.place }
    ensures sound { Sound hub.new.made hub.new.size hub.new.place }
    ensures none { hub.old.made ≡ false → (result ≡ unmade) × (hub.new ≡ hub.old) }
    ensures removed { hub.old.made ≡ true → Answered result (Removed hub.old.place.hub hub.new.place.hub client) }
{
    if !hub.made {
        return UNMADE;
    }
    number_of(hub.place.hub().remove(client))
}

// Shows what is held of a client, with its text at the front of a buffer.
#[unsafe(no_mangle)]
pub extern "C" fn presence_hub_show(
    hub: &mut PresenceHub,
    client: u64,
    text: &mut [u8],
    told: &mut HubRecord,
) -> u8
    requires sound { Sound hub.old.made hub.old.size hub.old.place }
    ensures none { hub.old.made ≡ false → (result ≡ unmade) × (text.new ≡ text.old) × (told.new ≡ told.old) }
    ensures hub { hub.new ≡ hub.old }
    ensures shown { hub.old.made ≡ true → Shown hub.old.place.hub client text.old text.new told.old told.new result }
{
    if !hub.made {
        return UNMADE;
    }
    tell_shown(hub.place.hub().show(client), text, told)
}

// Writes the update of the clients given, ascending, each once, at the front of a buffer.
#[unsafe(no_mangle)]
pub extern "C" fn presence_hub_list(
    hub: &mut PresenceHub,
    clients: &[u64],
    out: &mut [u8],
    length: &mut usize,
) -> u8
    requires sound { Sound hub.old.made hub.old.size hub.old.place }
    ensures none { hub.old.made ≡ false → (result ≡ unmade) × (out.new ≡ out.old) × (length.new ≡ length.old) }
    ensures hub { hub.new ≡ hub.old }
    ensures listed { hub.old.made ≡ true → Answered result (λ r. (length.new ≡ told_or length.old r) × Listed hub.old.place.hub clients.now out.old out.new r) }
{
    if !hub.made {
        return UNMADE;
    }
    tell_length(hub.place.hub().list(clients, out), length)
}
