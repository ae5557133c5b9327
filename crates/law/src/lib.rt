// The law over every run of a hub's calls: what it holds and answers, said of the calls that it was given.
#![tactic(auto)]

pub mod laws;
