// What the numbers of a C caller mean: the request that they ask for, and what it is told.
#![tactic(auto)]

pub mod reports;
pub mod requests;
