// The phantom, and what a shift and its opposite have to make of it.
use crate::steps::{Steps, VOXELS};
use std::array;
use std::num::nearest_usize_to_f64;

// No voxel of the phantom is the fill.
pub const FILL: f64 = -1.0;

fn number_at(place: usize) -> f64 {
    let size = nearest_usize_to_f64(place);
    if place % 2 == 0 { -size } else { size }
}

// Each voxel has a number of its own: -0.0, 1, -2, 3, -4 and so on.
pub fn phantom() -> [f64; VOXELS] {
    array::from_fn(number_at)
}

// Whether a voxel is, as a number, the one at `source`, with code 0; or the fill, with code 1: the bytes
// that the entry wrote.
fn is_moved(value: f64, code: u8, before: &[f64], source: Option<usize>) -> bool {
    match source.and_then(|place| before.get(place)) {
        Some(was) => code == 0 && value == *was,
        None => code == 1 && value == FILL,
    }
}

// How many voxels are not what the shift has to make of them.
pub fn moved_wrong(
    before: &[f64; VOXELS],
    after: &[f64; VOXELS],
    codes: &[u8; VOXELS],
    steps: Steps,
) -> usize {
    after
        .iter()
        .zip(codes)
        .enumerate()
        .filter(|&(place, (value, code))| !is_moved(*value, *code, before, steps.source(place)))
        .count()
}

// Whether a voxel is, as a number, what it was, if it had stayed inside; else the fill.
fn is_returned(value: f64, was: f64, between: Option<usize>) -> bool {
    value == if between.is_some() { was } else { FILL }
}

// How many voxels are not what the shift, and `back` after it, have to make of them.
pub fn returned_wrong(before: &[f64; VOXELS], after: &[f64; VOXELS], back: Steps) -> usize {
    after
        .iter()
        .zip(before)
        .enumerate()
        .filter(|&(place, (value, was))| !is_returned(*value, *was, back.source(place)))
        .count()
}
