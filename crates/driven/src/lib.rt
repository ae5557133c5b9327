// Hubs that programs drive: any of the boards, policies and clocks behind one set of calls.
#![tactic(auto)]

pub mod choice;
pub mod driven;
pub mod layer;
pub mod writing;
