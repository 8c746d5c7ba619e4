// What a caller asks for, its sizes, and the conditions that refuse it.
#![tactic(auto)]

use axis::coordinate::Axis;
use border::BorderMode;

pub mod conditions;
pub mod sizes;

// Document 01's record. An order is a number, since public calls take any; `factors` are shifts or zoom factors, one for each axis.
#[derive(Clone, Copy)]
pub struct Request {
    pub dims: [usize; 3],
    pub factors: [f64; 3],
    pub order: usize,
    pub prefilter: bool,
    pub mode: BorderMode,
}

#[derive(Clone, Copy)]
pub struct Axes {
    pub x: Axis,
    pub y: Axis,
    pub z: Axis,
}
