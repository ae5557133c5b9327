// Worked cases of a hub, as one table: what the definitions give that contracts rest on.
#![tactic(auto)]

pub mod laws;
