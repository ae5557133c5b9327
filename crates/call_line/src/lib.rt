// Lines that call a hub: which call a line is, with its numbers and with the parts that are bytes, texts or lists.
#![tactic(auto)]

pub mod call;
pub mod fault;
pub mod message;
#[cfg(test)]
mod tests;
pub mod words;
