// The value of one voxel: the records of its three indices, and the sum that they ask for.
ghost use Rattle.std.specs.Prelude.{◌≡◌, ◌&&◌, ◌*◌, ◌≤◌, length, get_or};
ghost use Rattle.limits.specs.Limits.{longest_padded};
ghost use Rattle.axis.specs.Point.{is_kept};
ghost use Rattle.axis.specs.Bookkeeping.{Reached};
ghost use Rattle.request.specs.Sizes.{needed};
ghost use Rattle.refusal.specs.Bookkeeping.{Admitted};
ghost use Rattle.voxels.specs.Voxel.{tap_of, voxel_at};
ghost use Rattle.voxels.specs.Bookkeeping.{computed_of};
ghost use Rattle.one_voxel.specs.Call.{lent_source};
ghost use Rattle.one_voxel.specs.Bookkeeping.{Inside};

use crate::records::Records;
use crate::sum::sum_at;
use axis::point::{Point, point_at};
use border::BorderMode;
use coverage::cover::drop_value;
use request::sizes::{filters, needed};
use request::{Axes, Request};
use voxels::source::Source;

// Whether no axis drops the voxel.
fn all_kept(x: &Point, y: &Point, z: &Point) -> bool
    ensures { result ≡ (is_kept x.now.mark && is_kept y.now.mark && is_kept z.now.mark) }
{
    x.mark.is_kept() && y.mark.is_kept() && z.mark.is_kept()
}

// What three records of kept indices read.
fn computed_at(r: &Records) -> f64
    ensures { result ≡ computed_of r.now.source (tap_of r.now.x.now) (tap_of r.now.y.now) (tap_of r.now.z.now) }
{
    let source = &r.source;
    if source.order == 0 {
        source.plane_at(r.x.at[0])[source.row_at(r.y.at[0]) + r.z.at[0]]
    } else {
        sum_at(r)
    }
}

// The value of a voxel over the voxels or coefficients of the source.
fn value_at(data: &[f64], a: Axes, order: usize, mode: BorderMode, at: [usize; 3]) -> f64
    requires data_len { length «data».now ≡ a.x.len * (a.y.len * a.z.len) }
    requires len_le_longest_padded { (a.y.len ≤ longest_padded) × (a.z.len ≤ longest_padded) }
    requires reached { Reached order a.x (get_or at 0 0) × (Reached order a.y (get_or at 1 0) × Reached order a.z (get_or at 2 0)) }
    ensures { result ≡ voxel_at order mode a.x a.y a.z «data».now (get_or at 0 0) (get_or at 1 0) (get_or at 2 0) }
{
    let x = point_at(a.x, at[0], order, mode);
    let y = point_at(a.y, at[1], order, mode);
    let z = point_at(a.z, at[2], order, mode);
    if all_kept(&x, &y, &z) {
        let source = Source {
            numbers: data,
            plane: a.y.len * a.z.len,
            row: a.z.len,
            order,
        };
        let r = Records {
            source,
            x: &x,
            y: &y,
            z: &z,
        };
        computed_at(&r)
    } else {
        drop_value(mode)
    }
}

// Over the coefficients that work lends, or over the input.
pub(crate) fn value_of(r: Request, a: Axes, input: &[f64], work: &[f64], at: [usize; 3]) -> f64
    requires admitted { Admitted r a (length input.now) }
    requires r_in_bounds { needed r ≤ length work.now }
    requires inside { Inside a at }
    ensures { result ≡ voxel_at r.order r.mode a.x a.y a.z (lent_source r input.now work.now) (get_or at 0 0) (get_or at 1 0) (get_or at 2 0) }
{
    if filters(r) {
        value_at(&work[..needed(r)], a, r.order, r.mode, at)
    } else {
        value_at(input, a, r.order, r.mode, at)
    }
}
