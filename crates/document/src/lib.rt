// Documents behind an interface: what a kind of document is, its hosts by their meaning and laws, and a layer that counts.
#![tactic(auto)]

pub mod fault;
pub mod host;
pub mod laws;
pub mod tally;
