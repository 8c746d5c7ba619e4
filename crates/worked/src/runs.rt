// The lanes of a volume with their codes, printed. A lane stands for all that follow it with the
// same bits and the same codes, so what is printed tells every voxel.
ghost use Rattle.std.specs.Prelude.{◌<◌};

use crate::print::{Codes, Numbers};
use std::num::f64_to_bits_with_nan;
use std::{fmt, io};

#[derive(Clone, Copy)]
struct Lane<'a> {
    values: &'a [f64],
    codes: &'a [u8],
}

impl Lane<'_> {
    fn is_like(self, other: Lane<'_>) -> bool {
        let mut pairs = self.values.iter().zip(other.values);
        self.codes == other.codes
            && pairs.all(|(x, y)| f64_to_bits_with_nan(*x) == f64_to_bits_with_nan(*y))
    }
}

// A lane, and how many like it follow each other.
#[derive(Clone, Copy)]
struct Run<'a> {
    lane: Lane<'a>,
    lanes: u64,
}

impl fmt::Display for Run<'_> {
    fn fmt<W: fmt::Write>(&self, f: &mut fmt::Formatter<W>) -> fmt::Result {
        let Lane { values, codes } = self.lane;
        let lanes = self.lanes;
        write!(
            f,
            "{}, codes{} ({lanes} lanes alike)",
            Numbers(values),
            Codes(codes)
        )
    }
}

pub fn print_lanes(rt: &impl Print, values: &[f64], codes: &[u8], length: usize) -> io::Result<()>
    requires { 0 < length }
{
    let mut run: Option<Run<'_>> = None;
    for (values, codes) in values.chunks(length).zip(codes.chunks(length)) {
        let lane = Lane { values, codes };
        let mut lanes = 1u64;
        if let Some(before) = run {
            if before.lane.is_like(lane) {
                lanes = before.lanes.saturating_add(1);
            } else {
                print!(rt; "{before}")?;
            }
        }
        run = Some(Run { lane, lanes });
    }
    match run {
        Some(last) => print!(rt; "{last}"),
        None => Ok(()),
    }
}
