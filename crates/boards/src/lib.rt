// Two boards, each a document: one of counts and one of slots. Neither knows the other.
#![tactic(auto)]

pub mod count;
pub mod count_board;
pub mod count_host;
pub mod count_laws;
pub mod count_out;
#[cfg(test)]
mod count_tests;
pub mod slot;
pub mod slot_board;
pub mod slot_host;
pub mod slot_laws;
pub mod slot_out;
#[cfg(test)]
mod slot_tests;
