// The lanes of a buffer, as many at a time as there are lines, at most four: taken into them, filtered, written back.
#![tactic(auto)]

ghost use Rattle.std.specs.Prelude.{◌≡◌, ◌+◌, ◌*◌, ◌-◌, ◌≤◌, ◌<◌, ℕ, [], length, get_or, take};
ghost use Rattle.lane.specs.Bookkeeping.{filter_by};
ghost use Rattle.lanes.specs.Along.{lane_of, filter_along};
ghost use Rattle.lanes.specs.Bookkeeping.{Written, Fills, Replaced, lanes_by};

use lane::{Filter, Lines, filter_lines};

// How lanes of `size` numbers lie in a buffer: lane j starts at j * step, and its numbers stand
// `stride` apart. The buffer is written, so it stands beside this, and Fills ties the two.
#[derive(Clone, Copy)]
pub struct Grid {
    pub lanes: usize,
    pub size: usize,
    pub step: usize,
    pub stride: usize,
}

// The lane that starts at `start`, into the line: two buffers at two strides, so an index counts.
fn take_lane(line: &mut [f64], data: &[f64], start: usize, stride: usize, n: usize)
    requires le_n { (1 ≤ n) × (n ≤ length line.old) }
    requires stride_in_bounds { start + (n - 1) * stride < length «data».now }
    ensures { take n line.new ≡ lane_of n stride start «data».now }
{
    for i in 0..n {
        line[i] = data[start + i * stride];
    }
}

// The line, back to its lane.
fn put_lane(data: &mut [f64], line: &[f64], start: usize, stride: usize, n: usize)
    requires le_n { (1 ≤ n) × (n ≤ length line.now) }
    requires le_stride { 1 ≤ stride }
    requires stride_in_bounds { start + (n - 1) * stride < length «data».old }
    ensures { Written n stride start (take n line.now) «data».old «data».new }
{
    for i in 0..n {
        data[start + i * stride] = line[i];
    }
}

// Lane j, where there is one.
fn take_one(line: &mut [f64], data: &[f64], grid: Grid, j: usize)
    requires fills { Fills grid (length «data».now) }
    requires size_in_bounds { grid.size ≤ length line.old }
    ensures { j < grid.lanes → take grid.size line.new ≡ lane_of grid.size grid.stride (j * grid.step) «data».now }
{
    if j < grid.lanes {
        take_lane(line, data, j * grid.step, grid.stride, grid.size);
    }
}

fn put_one(data: &mut [f64], line: &[f64], grid: Grid, j: usize)
    requires fills { Fills grid (length «data».old) }
    requires size_in_bounds { grid.size ≤ length line.now }
    ensures { Replaced grid j (j + 1) (λ k. take grid.size line.now) «data».old «data».new }
{
    if j < grid.lanes {
        put_lane(data, line, j * grid.step, grid.stride, grid.size);
    }
}

// The next lanes from lane j on, one for each line, those that there are.
fn take_next<const LINES: usize>(lines: &mut Lines<LINES>, data: &[f64], grid: Grid, j: usize)
    requires lines { LINES ≤ 4 }
    requires fills { Fills grid (length «data».now) }
    requires j_lt_lanes { j < grid.lanes }
    ensures long { length lines.new ≡ LINES }
    ensures taken { (k : ℕ) → k < LINES → j + k < grid.lanes → take grid.size (get_or lines.new k []) ≡ lane_of grid.size grid.stride ((j + k) * grid.step) «data».now }
{
    for (k, line) in lines.iter_mut().enumerate() {
        take_one(line, data, grid, j + k);
    }
}

fn put_next<const LINES: usize>(data: &mut [f64], lines: &Lines<LINES>, grid: Grid, j: usize)
    requires lines { LINES ≤ 4 }
    requires fills { Fills grid (length «data».old) }
    requires j_lt_lanes { j < grid.lanes }
    ensures { Replaced grid j (j + LINES) (λ k. take grid.size (get_or lines.now (k - j) [])) «data».old «data».new }
{
    for (k, line) in lines.iter().enumerate() {
        put_one(data, line, grid, j + k);
    }
}

fn filter_next<const LINES: usize>(
    data: &mut [f64],
    lines: &mut Lines<LINES>,
    grid: Grid,
    j: usize,
    filter: Filter,
)
    requires lines { LINES ≤ 4 }
    requires fills { Fills grid (length «data».old) }
    requires j_lt_lanes { j < grid.lanes }
    ensures { Replaced grid j (j + LINES) (lanes_by (filter_by filter.entry) grid «data».old) «data».old «data».new }
{
    take_next(lines, data, grid, j);
    filter_lines(lines, grid.size, filter);
    put_next(data, lines, grid, j);
}

// All lanes of a buffer that they fill, as many at once as there are lines. What the lines hold before does not
// matter.
pub fn filter_lanes<const LINES: usize>(
    data: &mut [f64],
    lines: &mut Lines<LINES>,
    grid: Grid,
    filter: Filter,
)
    requires lines { (1 ≤ LINES) × (LINES ≤ 4) }
    requires fills { Fills grid (length «data».old) }
    ensures { «data».new ≡ filter_along (filter_by filter.entry) grid.size grid.stride «data».old }
{
    for j in (0..grid.lanes).step_by(LINES) {
        filter_next(data, lines, grid, j, filter);
    }
}
