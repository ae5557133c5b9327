// A hub is made, its clock is set, and messages come and go.
ghost use Rattle.std.specs.Prelude.{◌≡◌, true, false, Ok, None};
ghost use Rattle.boards.specs.CountBoard.{counts};
ghost use Rattle.hub.specs.Steps.{fresh};
ghost use Rattle.hub_c.specs.Told.{Answered, handled_told, told_or, unmade};
ghost use Rattle.hub_c.specs.Places.{hub_size};
ghost use Rattle.hub_c.specs.Pins.{means, made_number, Sound, Handling, Asked, Started};

use crate::presence_hub::PresenceHub;
use crate::tell::{UNMADE, tell_handled, tell_length};
use crate::told::HubHandled;
use product::{ProductHub, fresh_hub};

// How many bytes a hub takes.
const SIZE: usize = size_of::<ProductHub>();

// How many bytes a hub takes.
#[unsafe(no_mangle)]
pub extern "C" fn presence_hub_size() -> usize
    ensures { result ≡ hub_size }
{
    SIZE
}

// Makes a fresh hub of the client with this id, its clock at a reading, where one lies or there is room for one.
#[unsafe(no_mangle)]
pub extern "C" fn presence_hub_new(hub: &mut PresenceHub, own: u64, reading: u64) -> u8
    requires sound { Sound hub.old.made hub.old.size hub.old.place }
    ensures sound { Sound hub.new.made hub.new.size hub.new.place }
    ensures number { result ≡ made_number hub.old.made hub.old.size (fresh counts own) }
    ensures refused { (result ≡ 0 → ⊥) → hub.new ≡ hub.old }
    ensures fresh { result ≡ 0 → Ok (means hub.new.place.hub) ≡ fresh counts own }
    ensures clock { result ≡ 0 → hub.new.place.hub.clock.reading ≡ reading }
    ensures policy { result ≡ 0 → hub.new.place.hub.policy.latest ≡ None }
    ensures made { result ≡ 0 → hub.new.made ≡ true }
{
    let fresh = match fresh_hub(own, reading) {
        Ok(fresh) => fresh,
        Err(fault) => return fault.number(),
    };
    if hub.made {
        *hub.place.hub() = fresh;
    } else if hub.size >= SIZE {
        hub.place.put(fresh);
        hub.made = true;
    } else {
        return UNMADE;
    }
    0
}

// Puts in the next reading of the clock.
#[unsafe(no_mangle)]
pub extern "C" fn presence_hub_set_clock(hub: &mut PresenceHub, reading: u64) -> u8
    requires sound { Sound hub.old.made hub.old.size hub.old.place }
    ensures sound { Sound hub.new.made hub.new.size hub.new.place }
    ensures none { hub.old.made ≡ false → (result ≡ unmade) × (hub.new ≡ hub.old) }
    ensures number { hub.old.made ≡ true → result ≡ 0 }
    ensures clock { hub.old.made ≡ true → hub.new.place.hub.clock.reading ≡ reading }
    ensures presence { hub.new.place.hub.presence ≡ hub.old.place.hub.presence }
    ensures host { hub.new.place.hub.host ≡ hub.old.place.hub.host }
    ensures policy { hub.new.place.hub.policy ≡ hub.old.place.hub.policy }
{
    if !hub.made {
        return UNMADE;
    }
    hub.place.hub().set_clock(reading);
    0
}

// Handles messages; their replies stand joined at the front of a buffer.
#[unsafe(no_mangle)]
pub extern "C" fn presence_hub_handle(
    hub: &mut PresenceHub,
    bytes: &[u8],
    replies: &mut [u8],
    told: &mut HubHandled,
) -> u8
    requires sound { Sound hub.old.made hub.old.size hub.old.place }
    ensures sound { Sound hub.new.made hub.new.size hub.new.place }
    ensures none { hub.old.made ≡ false → (result ≡ unmade) × (hub.new ≡ hub.old) × (replies.new ≡ replies.old) × (told.new ≡ told.old) }
    ensures handled { hub.old.made ≡ true → Answered result (λ r. (told.new ≡ handled_told r) × Handling hub.old.place.hub hub.new.place.hub bytes.now replies.old replies.new r) }
{
    if !hub.made {
        return UNMADE;
    }
    tell_handled(hub.place.hub().handle(bytes, replies), told)
}

// Writes the document's vector as a step 1 message at the front of a buffer.
#[unsafe(no_mangle)]
pub extern "C" fn presence_hub_step1(
    hub: &mut PresenceHub,
    out: &mut [u8],
    length: &mut usize,
) -> u8
    requires sound { Sound hub.old.made hub.old.size hub.old.place }
    ensures none { hub.old.made ≡ false → (result ≡ unmade) × (out.new ≡ out.old) × (length.new ≡ length.old) }
    ensures hub { hub.new ≡ hub.old }
    ensures asked { hub.old.made ≡ true → Answered result (λ r. (length.new ≡ told_or length.old r) × Asked hub.old.place.hub out.old out.new r) }
{
    if !hub.made {
        return UNMADE;
    }
    tell_length(hub.place.hub().step1(out), length)
}

// The same, and all live records after it.
#[unsafe(no_mangle)]
pub extern "C" fn presence_hub_start(
    hub: &mut PresenceHub,
    out: &mut [u8],
    length: &mut usize,
) -> u8
    requires sound { Sound hub.old.made hub.old.size hub.old.place }
    ensures none { hub.old.made ≡ false → (result ≡ unmade) × (out.new ≡ out.old) × (length.new ≡ length.old) }
    ensures hub { hub.new ≡ hub.old }
    ensures started { hub.old.made ≡ true → Answered result (λ r. (length.new ≡ told_or length.old r) × Started hub.old.place.hub out.old out.new r) }
{
    if !hub.made {
        return UNMADE;
    }
    tell_length(hub.place.hub().start(out), length)
}
