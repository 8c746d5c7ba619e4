// The code of every output voxel, and the counts of the codes.
#![tactic(auto)]

pub mod codes;
pub mod counts;
pub mod cover;
