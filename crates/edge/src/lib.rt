// The pad of Nearest and Replicate: twelve edge copies on every side of every axis but a single slice.
#![tactic(auto)]

ghost use Rattle.std.specs.Prelude.{◌≡◌, ◌+◌, ◌*◌, ◌≤◌, length};
ghost use Rattle.limits.specs.Limits.{longest_padded, wide_of};
ghost use Rattle.prefilter.specs.Volume.{count_of};
ghost use Rattle.prefilter.specs.Bookkeeping.{Sized};
ghost use Rattle.edge.specs.Edge.{clamped, padded, padded_dims};
ghost use Rattle.edge.specs.Bookkeeping.{padded_row, padded_plane};

use limits::{edge_of, wide_of};

// The index that padded index k copies, on an axis of n voxels.
fn clamp(n: usize, k: usize) -> usize
    requires { 1 ≤ n }
    ensures { result ≡ clamped n k }
{
    k.saturating_sub(edge_of(n)).min(n - 1)
}

fn pad_row(to: &mut [f64], from: &[f64])
    requires in_bounds { 1 ≤ length from.now }
    requires to_len { length to.old ≡ wide_of (length from.now) }
    ensures { to.new ≡ padded_row from.now }
{
    for (k, x) in to.iter_mut().enumerate() {
        *x = from[clamp(from.len(), k)];
    }
}

fn pad_plane(to: &mut [f64], from: &[f64], rows: usize, row: usize)
    requires le_rows { (1 ≤ rows) × (rows ≤ longest_padded) }
    requires le_row { (1 ≤ row) × (row ≤ longest_padded) }
    requires from_len { length from.now ≡ rows * row }
    requires to_len { length to.old ≡ wide_of rows * wide_of row }
    ensures { to.new ≡ padded_plane rows row from.now }
{
    let wide = wide_of(row);
    for j in 0..wide_of(rows) {
        let t = j * wide;
        let s = clamp(rows, j) * row;
        pad_row(&mut to[t..t + wide], &from[s..s + row]);
    }
}

// The input, into a buffer of the same length. Not copy_from_slice, which becomes memmove, and so a name that the archive
// would need from outside.
pub fn copy(to: &mut [f64], from: &[f64])
    requires { length to.old ≡ length from.now }
    ensures { to.new ≡ from.now }
{
    for (k, x) in to.iter_mut().enumerate() {
        *x = from[k];
    }
}

// The input, with the copies of its edge on every side, into a longer buffer.
pub fn pad(to: &mut [f64], from: &[f64], dims: [usize; 3])
    requires sized { Sized dims (length from.now) }
    requires to_len { length to.old ≡ count_of (padded_dims dims) }
    ensures { to.new ≡ padded dims from.now }
{
    let [planes, rows, row] = dims;
    let plane = rows * row;
    let wide = wide_of(rows) * wide_of(row);
    for i in 0..wide_of(planes) {
        let t = i * wide;
        let s = clamp(planes, i) * plane;
        pad_plane(&mut to[t..t + wide], &from[s..s + plane], rows, row);
    }
}
