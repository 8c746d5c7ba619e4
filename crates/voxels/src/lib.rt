// The value of every output voxel: sums, the table of the last axis, the sweep of a volume.
#![tactic(auto)]

mod row;
pub mod source;
mod sum;
pub mod sweep;
mod table;
