// What C is told of a call.

// How far a handle came: as its `Handled` says, or its `Refusal`.
#[repr(C)]
#[derive(Clone, Copy, Debug, PartialEq, Eq)]
pub struct HubHandled {
    pub messages: usize,
    pub place: usize,
    pub replies: usize,
    // of an unreadable update (12) the number that reading met, and otherwise 0
    pub wire: u8,
}

// How many clients each of the four lists has.
#[repr(C)]
#[derive(Clone, Copy, Debug, PartialEq, Eq)]
pub struct HubChanges {
    pub added: usize,
    pub updated: usize,
    pub changed: usize,
    pub removed: usize,
}

// What is held of a client: nothing, null, or a live text of a length.
#[repr(C)]
#[derive(Clone, Copy, Debug, PartialEq, Eq)]
pub struct HubRecord {
    pub time: u64,
    pub clock: u32,
    pub held: bool,
    pub live: bool,
    pub text: usize,
}
