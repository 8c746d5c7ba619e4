// The sums of four voxels that follow each other on the last axis: each has a sum of its own, so
// that their chains of additions do not wait for each other.
ghost use Rattle.std.specs.Prelude.{◌≡◌, ℕ, ◌+◌, ◌<◌, length, get_or};
ghost use Rattle.std.specs.Float.{nan};
ghost use Rattle.limits.specs.Limits.{longest};
ghost use Rattle.voxels.specs.Sum.{term, sum_x, sum_y};
ghost use Rattle.voxels.specs.Voxel.{tap_of};
ghost use Rattle.voxels.specs.Bookkeeping.{column, Each, sum_of, lane, at_lane};

use crate::row::Row;
use limits::LONGEST;

// A value for each of four voxels, by name: an array's map passes them through an iterator, and `step`
// would be four lines over an array too.
#[derive(Clone, Copy)]
pub struct Four<T> {
    pub a: T,
    pub b: T,
    pub c: T,
    pub d: T,
}

impl<T: Copy> Four<T> {
    fn map<U, F: Fn(T) -> U>(self, f: F) -> Four<U>
        requires { Each (F.pre f) self }
        ensures { (j : ℕ) → F.post f (at_lane self j) (at_lane result j) }
    {
        Four {
            a: f(self.a),
            b: f(self.b),
            c: f(self.c),
            d: f(self.d),
        }
    }
}

fn four_at<T: Copy>(items: &[T], i: usize) -> Four<T>
    requires { i + 3 < length items.now }
    ensures { (j : ℕ) (d : T) → at_lane result j ≡ get_or items.now (i + lane j) d }
{
    Four {
        a: items[i],
        b: items[i + 1],
        c: items[i + 2],
        d: items[i + 3],
    }
}

// One product more for each, from a plane.
fn step(p: &[f64], w: f64, v: Four<f64>, at: Four<usize>, t: Four<f64>) -> Four<f64>
    requires { Each (λ i. i < length p.now) at }
    ensures { (j : ℕ) → at_lane result j ≡ term (at_lane t j) (get_or p.now (at_lane at j) nan) w (at_lane v j) }
{
    Four {
        a: t.a + p[at.a] * (w * v.a),
        b: t.b + p[at.b] * (w * v.b),
        c: t.c + p[at.c] * (w * v.c),
        d: t.d + p[at.d] * (w * v.d),
    }
}

fn add_x(row: &Row, at: Four<usize>, v: Four<f64>, sum: Four<f64>) -> Four<f64>
    requires { Each (λ i. i < row.now.source.plane) at }
    ensures { (j : ℕ) → at_lane result j ≡ sum_x row.now.source.numbers.now row.now.source.plane (tap_of row.now.x.now) (at_lane at j) (at_lane v j) (at_lane sum j) (row.now.source.order + 1) }
{
    let mut t = sum;
    for k in 0..row.source.order + 1 {
        t = step(row.source.plane_at(row.x.at[k]), row.x.weight[k], v, at, t);
    }
    t
}

fn add_y(row: &Row, z: Four<usize>, w: Four<f64>, sum: Four<f64>) -> Four<f64>
    requires { Each (λ i. i < row.now.source.row) z }
    ensures { (j : ℕ) → at_lane result j ≡ sum_y row.now.source.numbers.now row.now.source.plane row.now.source.row (row.now.source.order + 1) (tap_of row.now.x.now) (tap_of row.now.y.now) (at_lane z j) (at_lane w j) (at_lane sum j) (row.now.source.order + 1) }
{
    let mut t = sum;
    for k in 0..row.source.order + 1 {
        let start = row.source.row_at(row.y.at[k]);
        let v = row.y.weight[k];
        t = add_x(row, z.map(|place| start + place), w.map(|w| v * w), t);
    }
    t
}

// The sums of the voxels at places o to o + 3 of a row. Each place of the table names one of the row,
// so a sum whose place is dropped, or past the end of the row, is of no use but does no harm.
pub(crate) fn sum_four(row: &Row, o: usize) -> Four<f64>
    requires { o < longest }
    ensures { (j : ℕ) → at_lane result j ≡ sum_of row.now.source (tap_of row.now.x.now) (tap_of row.now.y.now) (column row.now.table.now (o + lane j)) }
{
    let mut t = Four {
        a: 0.0,
        b: 0.0,
        c: 0.0,
        d: 0.0,
    };
    for k in 0..row.source.order + 1 {
        let i = k * LONGEST + o;
        let places = four_at(&row.table.at, i);
        let weights = four_at(&row.table.weight, i);
        t = add_y(row, places, weights, t);
    }
    t
}
