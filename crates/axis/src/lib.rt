// One axis of a request: from an output index to its coordinate, and on to the weights and
// neighbours that its sum reads.
#![tactic(auto)]

pub mod coordinate;
pub mod folded;
pub mod point;
pub mod splines;
