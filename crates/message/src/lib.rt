// Messages of the sync protocol, read from bytes without a copy.
#![tactic(auto)]

pub mod arrived;
pub mod laws;
pub mod message;
pub mod messages;
pub mod owned;
pub mod presence;
#[cfg(test)]
mod tests;
pub mod text;
pub mod update;
pub mod write;
