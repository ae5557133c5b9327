// A hub: messages handled, one after another.
#![tactic(auto)]

#[cfg(test)]
mod endless;
pub mod hub;
pub mod live;
pub mod presence;
pub mod run;
pub mod sync;
#[cfg(test)]
mod tests;
pub mod writing;
