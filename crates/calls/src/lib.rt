// What every call of a hub answers: the faults of all layers, the policy that is asked, and the shape of an answer.
#![tactic(auto)]

pub mod answer;
pub mod fault;
pub mod policy;
#[cfg(test)]
mod tests;
