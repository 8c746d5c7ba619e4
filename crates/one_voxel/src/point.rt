// The record of one axis at one output index: its coordinate, neighbours and weights, the very numbers
// that the engines use. No caller has checked anything.
ghost use Rattle.std.specs.Prelude.{◌≡◌, [], ◌∷◌, length};
ghost use Rattle.axis.specs.Coordinate.{settled};
ghost use Rattle.axis.specs.Point.{point_at};
ghost use Rattle.axis.specs.Bookkeeping.{Reached};
ghost use Rattle.one_voxel.specs.Points.{point_call_of, shift_point_call, zoom_point_call};

use axis::coordinate::{Axis, output_length, pad_of, settled_at, shift_axis, zoom_axis};
use axis::point::point_at;
use border::BorderMode;
use refusal::Refusal;
use refusal::points::{shift_point_verdict, zoom_point_verdict};

// The record, into the three buffers that C lends one by one.
fn put_point(
    order: usize,
    mode: BorderMode,
    a: Axis,
    i: usize,
    coordinate: &mut [f64],
    at: &mut [usize],
    weight: &mut [f64],
)
    requires reached { Reached order a i }
    requires coordinate_len { (length coordinate.old ≡ 1) × ((length at.old ≡ 6) × (length weight.old ≡ 6)) }
    ensures { (coordinate.new ≡ settled mode a i ∷ []) × ((at.new ≡ (point_at order mode a i).at) × (weight.new ≡ (point_at order mode a i).weight)) }
{
    coordinate[0] = settled_at(a, i, mode);
    let p = point_at(a, i, order, mode);
    at.copy_from_slice(&p.at);
    weight.copy_from_slice(&p.weight);
}

// Not one with zoom_point: what they share is put_point. C hands on the numbers one by one, and the definitions take
// them so.
pub fn shift_point(
    length: usize,
    shift: f64,
    order: usize,
    prefilter: bool,
    mode: BorderMode,
    i: usize,
    coordinate: &mut [f64],
    at: &mut [usize],
    weight: &mut [f64],
) -> Result<(), Refusal>
    ensures { point_call_of result coordinate.new at.new weight.new ≡ shift_point_call length shift order prefilter mode i coordinate.old at.old weight.old }
{
    shift_point_verdict(
        length,
        shift,
        order,
        prefilter,
        mode,
        i,
        coordinate.len(),
        at.len(),
        weight.len(),
    )?;
    let a = shift_axis(length, shift, pad_of(mode, prefilter, order, length));
    put_point(order, mode, a, i, coordinate, at, weight);
    Ok(())
}

pub fn zoom_point(
    length: usize,
    factor: f64,
    order: usize,
    prefilter: bool,
    mode: BorderMode,
    i: usize,
    coordinate: &mut [f64],
    at: &mut [usize],
    weight: &mut [f64],
) -> Result<(), Refusal>
    ensures { point_call_of result coordinate.new at.new weight.new ≡ zoom_point_call length factor order prefilter mode i coordinate.old at.old weight.old }
{
    zoom_point_verdict(
        length,
        factor,
        order,
        prefilter,
        mode,
        i,
        coordinate.len(),
        at.len(),
        weight.len(),
    )?;
    let a = zoom_axis(
        length,
        output_length(length, factor),
        pad_of(mode, prefilter, order, length),
    );
    put_point(order, mode, a, i, coordinate, at, weight);
    Ok(())
}
