// The answers of one axis.
ghost use Rattle.std.specs.Prelude.{◌≤◌, IfSome};
ghost use Rattle.limits.specs.Limits.{longest};
ghost use Rattle.replay_parts.specs.Bookkeeping.{Reachable};

use crate::modes::{MODES, mode_of};
use answer_file::replay::Replay;
use answer_file::words::Words;
use axis::coordinate::{Axis, float_of, output_length, shift_axis, zoom_axis};
use axis::point::{Point, point_at};
use axis::splines::build_splines;
use border::{BorderMode, map_coordinates};
use limits::LONGEST;

// A number, its floor, and the nearest whole number.
pub fn rounding_case(r: &mut Replay) {
    let x = r.rest.float(0);
    r.skip(1);
    r.expect_float(exact::floor(x));
    r.expect_float(exact::round_ties_even(x));
}

// A length, a factor, and the output length.
pub fn length_case(r: &mut Replay) {
    let length = r.rest.whole(0);
    let factor = r.rest.float(1);
    if length <= LONGEST && factor > 0.0 && factor <= 4096.0 {
        r.skip(2);
        r.expect_whole(output_length(length, factor) as u64);
    } else {
        r.refuse();
    }
}

// A length, a coordinate, and its fold in each mode.
pub fn fold_case(r: &mut Replay) {
    let length = float_of(r.rest.whole(0));
    let x = r.rest.float(1);
    r.skip(2);
    for mode in MODES {
        r.expect_float(map_coordinates(x, length, mode));
    }
}

// A coordinate, and its weights at orders 1 to 5.
pub fn weights_case(r: &mut Replay) {
    let x = r.rest.float(0);
    r.skip(1);
    for order in 1..6 {
        let weight = build_splines(x, order);
        r.expect_floats(&weight[..order + 1]);
    }
}

// A mark, numbered as in the enum; after mark 0 weights and neighbours, `count` of each.
fn expect_record(r: &mut Replay, t: Point, count: usize)
    requires { count ≤ 6 }
{
    let reads = r.rest.word(0) == 0;
    r.expect_whole(t.mark as u64);
    if reads {
        r.expect_floats(&t.weight[..count]);
        for neighbour in &t.at[..count] {
            r.expect_whole(*neighbour as u64);
        }
    }
}

// A shift within 2^20. Not one with zoomed: a shift is a float and an output length a whole number, each
// with limits of its own.
fn shifted(length: usize, shift: f64, pad: usize) -> Option<Axis>
    requires { (2 ≤ length) × ((length ≤ longest) × (pad ≤ 12)) }
    ensures { IfSome result (λ a. Reachable a) }
{
    if shift >= -1048576.0 && shift <= 1048576.0 {
        Some(shift_axis(length, shift, pad))
    } else {
        None
    }
}

fn zoomed(length: usize, output: usize, pad: usize) -> Option<Axis>
    requires { (2 ≤ length) × ((length ≤ longest) × (pad ≤ 12)) }
    ensures { IfSome result (λ a. Reachable a) }
{
    if output >= 2 && output <= LONGEST {
        Some(zoom_axis(length, output, pad))
    } else {
        None
    }
}

// The header starts with 0 for a shift or 1 for a zoom, the length, the shift or the output length,
// and the pad.
fn axis_of(case: Words) -> Option<Axis>
    ensures { IfSome result (λ a. Reachable a) }
{
    let length = case.whole(1);
    let pad = case.whole(3);
    if length < 2 || length > LONGEST || pad > 12 {
        return None;
    }
    if case.whole(0) == 0 {
        shifted(length, case.float(2), pad)
    } else {
        zoomed(length, case.whole(2), pad)
    }
}

// Records of one axis. The header's other numbers: order, mode, first index and how many.
pub fn axis_case(r: &mut Replay) {
    let case = r.rest;
    let Some(a) = axis_of(case) else {
        return r.refuse();
    };
    let order = case.whole(4);
    let mode = mode_of(case.whole(5));
    let first = case.whole(6);
    let count = case.whole(7);
    if order > 5 || first > LONGEST || count > LONGEST - first {
        return r.refuse();
    }
    r.skip(8);
    for i in first..first + count {
        expect_record(r, point_at(a, i, order, mode), order + 1);
    }
}
