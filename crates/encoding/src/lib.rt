// From bytes to values and back, as the sync protocol's encoding has them: numbers, buffers, texts, ids and counts.
#![tactic(auto)]

pub mod entries;
pub mod entries_out;
pub mod fault;
pub mod laws;
pub mod read;
pub mod sink;
#[cfg(test)]
mod tests;
pub mod utf8;
pub mod var_uint;
pub mod write;
