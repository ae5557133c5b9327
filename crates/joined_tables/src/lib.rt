// Tables as documents: joined client by client, read off the wire, and told of by a vector.
#![tactic(auto)]

pub mod laws;
pub mod update;
pub mod vector_of;
