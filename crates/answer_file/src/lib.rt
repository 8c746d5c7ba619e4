// A file of recorded answers: its words, the comparison with them, and what a program writes of it.
#![tactic(auto)]

pub mod load;
pub mod print;
pub mod replay;
pub mod volumes;
pub mod words;
