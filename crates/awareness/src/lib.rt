// Presence: what a hub holds of each client, what updates do to it, and the lists that tell of it.
#![tactic(auto)]

pub mod apply;
pub mod awareness;
pub mod change;
pub mod clock;
pub mod fault;
pub mod laws;
pub mod listing;
pub mod local;
pub mod observer;
pub mod record;
mod standing;
pub mod summary;
#[cfg(test)]
mod tests;
pub mod winning;
