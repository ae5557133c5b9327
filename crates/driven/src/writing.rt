// Messages written from entries.
use calls::answer::Refusal;
use encoding::fault::WireFault;
use hub::writing::write;
use message::presence::PresenceEntry;
use message::update::{Presence, PresenceUpdate};
use state_vector::vector::{StateVector, VectorEntry};

// A vector of entries, put in one after another.
fn vector_of(entries: &[VectorEntry]) -> Result<StateVector, WireFault> {
    let mut vector = StateVector::new();
    for e in entries {
        vector.put(*e)?;
    }
    Ok(vector)
}

// A presence update of entries, put in one after another.
fn update_of(entries: &[PresenceEntry]) -> Result<PresenceUpdate, WireFault> {
    let mut update = PresenceUpdate::new();
    for e in entries {
        update.put(Presence::new(*e)?)?;
    }
    Ok(update)
}

// Step 1 of a vector's entries.
pub fn write_step1(entries: &[VectorEntry], out: &mut [u8]) -> Result<usize, Refusal> {
    write(&vector_of(entries)?, out)
}

// Awareness of presence entries.
pub fn write_awareness(entries: &[PresenceEntry], out: &mut [u8]) -> Result<usize, Refusal> {
    write(&update_of(entries)?, out)
}
