// Tables of entries by client id, what stands above what in them, and the state vector.
#![tactic(auto)]

pub mod keyed;
pub mod laws;
pub mod lent;
pub mod standing;
#[cfg(test)]
mod tests;
pub mod vector;
pub mod vector_out;
