// The hub that ships, for C: one function for each call, over memory that the caller provides.
#![tactic(auto)]

mod lend;
mod messages;
mod place;
mod presence_hub;
mod records;
mod tell;
#[cfg(test)]
mod tests;
mod told;

pub use crate::place::Place;
pub use crate::presence_hub::PresenceHub;
pub use crate::told::{HubChanges, HubHandled, HubRecord};
