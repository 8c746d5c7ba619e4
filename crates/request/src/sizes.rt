// The lengths, counts and axes of a request. A request is a record that public calls take with any numbers, so each
// function asks of it what the checks have shown.
ghost use Rattle.std.specs.Prelude.{◌≡◌, ◌<◌};
ghost use Rattle.prefilter.specs.Volume.{count_of};
ghost use Rattle.request.specs.Sizes.{filters, padding, source_length, source_dims, needed, zoom_dims, shift_axes, zoom_axes};
ghost use Rattle.request.specs.Bookkeeping.{Small, Lengths, Zoomed};

use crate::{Axes, Request};
use axis::coordinate::{output_length, pad_of, shift_axis, zoom_axis};

pub fn count_of(d: [usize; 3]) -> usize
    requires { Small d }
    ensures { result ≡ count_of d }
{
    d[0] * (d[1] * d[2])
}

pub fn filters(r: Request) -> bool
    ensures { result ≡ filters r }
{
    r.prefilter && r.order > 1
}

// How many edge copies stand on each side of an axis.
pub fn padding(r: Request, axis: usize) -> usize
    requires { axis < 3 }
    ensures { result ≡ padding r axis }
{
    pad_of(r.mode, r.prefilter, r.order, r.dims[axis])
}

fn source_length(r: Request, axis: usize) -> usize
    requires { Lengths r.dims × (axis < 3) }
    ensures { result ≡ source_length r axis }
{
    r.dims[axis] + 2 * padding(r, axis)
}

// The lengths of what the sums read.
pub fn source_dims(r: Request) -> [usize; 3]
    requires { Lengths r.dims }
    ensures { result ≡ source_dims r }
{
    [
        source_length(r, 0),
        source_length(r, 1),
        source_length(r, 2),
    ]
}

// How many places of work are needed.
pub fn needed(r: Request) -> usize
    requires { Lengths r.dims }
    ensures { result ≡ needed r }
{
    if filters(r) {
        count_of(source_dims(r))
    } else {
        0
    }
}

pub fn zoom_dims(r: Request) -> [usize; 3]
    requires { Zoomed r }
    ensures { result ≡ zoom_dims r }
{
    [
        output_length(r.dims[0], r.factors[0]),
        output_length(r.dims[1], r.factors[1]),
        output_length(r.dims[2], r.factors[2]),
    ]
}

// Not one with zoom_axes: a step for each axis would be a closure, and no shorter.
pub fn shift_axes(r: Request) -> Axes
    requires { Lengths r.dims }
    ensures { result ≡ shift_axes r }
{
    Axes {
        x: shift_axis(r.dims[0], r.factors[0], padding(r, 0)),
        y: shift_axis(r.dims[1], r.factors[1], padding(r, 1)),
        z: shift_axis(r.dims[2], r.factors[2], padding(r, 2)),
    }
}

pub fn zoom_axes(r: Request, out: [usize; 3]) -> Axes
    requires lengths { Lengths r.dims }
    requires out_value { (out ≡ zoom_dims r) × Lengths out }
    ensures { result ≡ zoom_axes r }
{
    Axes {
        x: zoom_axis(r.dims[0], out[0], padding(r, 0)),
        y: zoom_axis(r.dims[1], out[1], padding(r, 1)),
        z: zoom_axis(r.dims[2], out[2], padding(r, 2)),
    }
}
