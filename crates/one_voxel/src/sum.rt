// The sum of one voxel, in document 01's order: z outermost, x innermost. Those of four voxels at once
// (crate voxels) have the same three loops; one of any number of voxels would be no plainer than both.
ghost use Rattle.std.specs.Prelude.{◌≡◌, ◌+◌, ◌<◌};
ghost use Rattle.voxels.specs.Sum.{sum_x, sum_y};
ghost use Rattle.voxels.specs.Voxel.{tap_of};
ghost use Rattle.voxels.specs.Bookkeeping.{sum_of};

use crate::records::Records;

// At a place of each plane, with the weight v of the other two axes.
fn add_x(r: &Records, place: usize, v: f64, sum: f64) -> f64
    requires { place < r.now.source.plane }
    ensures { result ≡ sum_x r.now.source.numbers.now r.now.source.plane (tap_of r.now.x.now) place v sum (r.now.source.order + 1) }
{
    let mut t = sum;
    for k in 0..r.source.order + 1 {
        t += r.source.plane_at(r.x.at[k])[place] * (r.x.weight[k] * v);
    }
    t
}

// At place z of each row, with the weight w of axis 2.
fn add_y(r: &Records, z: usize, w: f64, sum: f64) -> f64
    requires { z < r.now.source.row }
    ensures { result ≡ sum_y r.now.source.numbers.now r.now.source.plane r.now.source.row (r.now.source.order + 1) (tap_of r.now.x.now) (tap_of r.now.y.now) z w sum (r.now.source.order + 1) }
{
    let mut t = sum;
    for k in 0..r.source.order + 1 {
        let start = r.source.row_at(r.y.at[k]);
        t = add_x(r, start + z, r.y.weight[k] * w, t);
    }
    t
}

pub(crate) fn sum_at(r: &Records) -> f64
    ensures { result ≡ sum_of r.now.source (tap_of r.now.x.now) (tap_of r.now.y.now) (tap_of r.now.z.now) }
{
    let mut t = 0.0;
    for k in 0..r.source.order + 1 {
        t = add_y(r, r.z.at[k], r.z.weight[k], t);
    }
    t
}
