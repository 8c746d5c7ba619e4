// Which refusal the record of one axis meets first, if any.
ghost use Rattle.std.specs.Prelude.{◌≡◌, ◌&&◌, ◌||◌, eqb};
ghost use Rattle.axis.specs.Point.{some_beside};
ghost use Rattle.request.specs.Conditions.{wrong};
ghost use Rattle.refusal.specs.Refusals.{first, point_checks, shift_point_checks, zoom_point_checks};

use crate::{Refusal, refuse_if};
use axis::coordinate::{Axis, output_length, pad_of, shift_axis, zoom_axis};
use axis::point::some_beside;
use border::BorderMode;
use request::conditions::{
    bad_index, bad_length, bad_output, bad_shift, bad_zoom, moves_slice, zooms_slice,
};

// The lengths of the lent buffers: one coordinate, six neighbours, six weights.
fn wrong_places(coordinate: usize, at: usize, weight: usize) -> bool
    ensures { result ≡ (wrong coordinate 1 || wrong at 6 || wrong weight 6) }
{
    coordinate != 1 || at != 6 || weight != 6
}

fn beside(order: usize, mode: BorderMode, a: Axis) -> bool
    ensures { result ≡ (eqb order 0 && some_beside mode a) }
{
    order == 0 && some_beside(a, mode)
}

// Refusals 7, 9 and 11. What they are asked of stands one by one, as in the list of checks.
fn point_verdict(
    order: usize,
    mode: BorderMode,
    a: Axis,
    i: usize,
    coordinate: usize,
    at: usize,
    weight: usize,
) -> Result<(), Refusal>
    ensures { result ≡ first (point_checks order mode a i coordinate at weight) }
{
    refuse_if(wrong_places(coordinate, at, weight), Refusal::Buffer)?;
    refuse_if(beside(order, mode, a), Refusal::Beside)?;
    refuse_if(bad_index(a.out, i), Refusal::Index)
}

// Not one with zoom_point_verdict: what the lists share is point_verdict. C hands on the numbers one by one, and the
// definitions take them so.
pub fn shift_point_verdict(
    length: usize,
    shift: f64,
    order: usize,
    prefilter: bool,
    mode: BorderMode,
    i: usize,
    coordinate: usize,
    at: usize,
    weight: usize,
) -> Result<(), Refusal>
    ensures { result ≡ first (shift_point_checks length shift order prefilter mode i coordinate at weight) }
{
    refuse_if(order > 5, Refusal::Order)?;
    refuse_if(bad_length(length), Refusal::Length)?;
    refuse_if(bad_shift(shift), Refusal::Factor)?;
    refuse_if(moves_slice(length, shift), Refusal::Slice)?;
    let a = shift_axis(length, shift, pad_of(mode, prefilter, order, length));
    point_verdict(order, mode, a, i, coordinate, at, weight)
}

pub fn zoom_point_verdict(
    length: usize,
    factor: f64,
    order: usize,
    prefilter: bool,
    mode: BorderMode,
    i: usize,
    coordinate: usize,
    at: usize,
    weight: usize,
) -> Result<(), Refusal>
    ensures { result ≡ first (zoom_point_checks length factor order prefilter mode i coordinate at weight) }
{
    refuse_if(order > 5, Refusal::Order)?;
    refuse_if(bad_length(length), Refusal::Length)?;
    refuse_if(bad_zoom(factor), Refusal::Factor)?;
    let out = output_length(length, factor);
    refuse_if(zooms_slice(length, out), Refusal::Slice)?;
    refuse_if(bad_output(length, out), Refusal::OutputLength)?;
    let a = zoom_axis(length, out, pad_of(mode, prefilter, order, length));
    point_verdict(order, mode, a, i, coordinate, at, weight)
}
