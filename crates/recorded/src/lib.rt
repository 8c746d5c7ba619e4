// Recorded calls of the four entries: how they stand in a file, and how one is made.
#![tactic(auto)]

pub mod call;
pub mod calls;
pub mod entry;
