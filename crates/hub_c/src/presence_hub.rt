// A hub as C has it.
use crate::place::Place;

// Where a hub lies, how many bytes are there, and whether a hub was made there.
#[repr(C)]
pub struct PresenceHub {
    pub place: Place,
    pub size: usize,
    pub made: bool,
}
