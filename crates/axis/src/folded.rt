// Whether an output index reads a neighbour that lies outside its axis and was folded back.
ghost use Rattle.std.specs.Prelude.{◌≡◌, ◌≤◌, ◌&&◌};
ghost use Rattle.axis.specs.Folded.{weighs, beyond, some_folded, folded_at};

use crate::coordinate::{Axis, float_of, settled_at};
use crate::point::first_neighbour;
use crate::splines::{build_splines, order_on};
use border::BorderMode;

// A neighbour at x, before its fold, with weight w: whether it brings in something from outside the
// unpadded axis.
fn weighs_beyond(a: Axis, x: f64, w: f64) -> bool
    ensures { result ≡ weighs w && beyond a x }
{
    w != 0.0 && (x < a.pad || x >= float_of(a.len) - a.pad)
}

// Whether some neighbour of output index i does, at the order that the axis is read at.
fn some_folded(a: Axis, i: usize, order: usize, mode: BorderMode) -> bool
    requires { order ≤ 5 }
    ensures { result ≡ some_folded order mode a i }
{
    let to = settled_at(a, i, mode);
    let weight = build_splines(to, order);
    let first = first_neighbour(order, to);
    (0..order + 1).any(|k| weighs_beyond(a, first + float_of(k), weight[k]))
}

pub fn is_folded(a: Axis, i: usize, order: usize, mode: BorderMode) -> bool
    requires { order ≤ 5 }
    ensures { result ≡ folded_at order mode a i }
{
    some_folded(a, i, order_on(a.len, order), mode)
}
