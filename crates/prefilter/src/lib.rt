// The spline prefilter of a volume, in place: along one axis, and along the three in turn. Lengths, axis and order are
// numbers, as the definitions of these names take them, so each function bounds its own.
#![tactic(auto)]

ghost use Rattle.std.specs.Prelude.{◌≡◌, false, ◌*◌, ◌≤◌, length};
ghost use Rattle.limits.specs.Limits.{single};
ghost use Rattle.lane.specs.Lane.{reflects};
ghost use Rattle.lane.specs.Bookkeeping.{filter_by};
ghost use Rattle.lanes.specs.Along.{filter_along};
ghost use Rattle.prefilter.specs.Volume.{length_of, stride_of, count_of, filter_axis, filter_volume};
ghost use Rattle.prefilter.specs.Bookkeeping.{Sized};
ghost use Rattle.lanes.specs.Bookkeeping.{Fills};

use border::BorderMode;
use lane::Filter;
use lanes::{Grid, filter_lanes};
use limits::{LONGEST_PADDED, is_single};
use poles::{filter_gain, get_filter_poles};

// Whether the lane filter has the reflect starts.
fn reflects(mode: BorderMode) -> bool
    ensures { result ≡ reflects mode }
{
    matches!(
        mode,
        BorderMode::Nearest | BorderMode::Reflect | BorderMode::Replicate
    )
}

// Blocks that lanes fill, one after another. Not inlined: its lines would lie in the frame of a call that filters
// nothing, too.
#[inline(never)]
fn filter_blocks(data: &mut [f64], blocks: usize, grid: Grid, filter: Filter)
    requires fills { Fills grid (grid.lanes * grid.size) }
    requires le_blocks { (1 ≤ blocks) × (length «data».old ≡ blocks * (grid.lanes * grid.size)) }
    ensures { «data».new ≡ filter_along (filter_by filter.entry) grid.size grid.stride «data».old }
{
    let mut lines = [[0.0; LONGEST_PADDED]; 4];
    let block = grid.lanes * grid.size;
    // no `chunks_mut`: of what it lent a proof knows only the length
    for i in 0..blocks {
        let s = i * block;
        filter_lanes(&mut data[s..s + block], &mut lines, grid, filter);
    }
}

// How many blocks the lanes along an axis fill, and how they lie in each.
fn lanes_along(dims: [usize; 3], axis: usize) -> (usize, Grid)
    requires sized { Sized dims (count_of dims) }
    requires axis_bound { (axis ≤ 2) × (2 ≤ length_of axis dims) }
    ensures fills { Fills result.1 (result.1.lanes * result.1.size) }
    ensures blocks { (1 ≤ result.0) × (count_of dims ≡ result.0 * (result.1.lanes * result.1.size)) }
    ensures along { (result.1.size ≡ length_of axis dims) × (result.1.stride ≡ stride_of axis dims) }
{
    let [planes, rows, row] = dims;
    match axis {
        // these lanes cross the planes
        0 => (
            1,
            Grid {
                lanes: rows * row,
                size: planes,
                step: 1,
                stride: rows * row,
            },
        ),
        // these lie in a plane, side by side
        1 => (
            planes,
            Grid {
                lanes: row,
                size: rows,
                step: 1,
                stride: row,
            },
        ),
        // these are a plane's rows
        _ => (
            planes,
            Grid {
                lanes: rows,
                size: row,
                step: row,
                stride: 1,
            },
        ),
    }
}

// The lanes along an axis that is no single slice.
fn filter_long(data: &mut [f64], dims: [usize; 3], axis: usize, order: usize, mode: BorderMode)
    requires sized { Sized dims (length «data».old) }
    requires axis_bound { (axis ≤ 2) × (single (length_of axis dims) ≡ false) }
    requires le_order { (2 ≤ order) × (order ≤ 5) }
    ensures { «data».new ≡ filter_axis mode order dims axis «data».old }
{
    let (blocks, grid) = lanes_along(dims, axis);
    let filter = Filter {
        poles: get_filter_poles(order),
        gain: filter_gain(order),
        reflect: reflects(mode),
    };
    filter_blocks(data, blocks, grid, filter);
}

// The Rust's `_spline_filter1d`.
pub fn filter_axis(data: &mut [f64], dims: [usize; 3], axis: usize, order: usize, mode: BorderMode)
    requires sized { Sized dims (length «data».old) }
    requires axis_bound { axis ≤ 2 }
    requires le_order { (2 ≤ order) × (order ≤ 5) }
    ensures { «data».new ≡ filter_axis mode order dims axis «data».old }
{
    if !is_single(dims[axis]) {
        filter_long(data, dims, axis, order, mode);
    }
}

pub fn filter_volume(data: &mut [f64], dims: [usize; 3], order: usize, mode: BorderMode)
    requires sized { Sized dims (length «data».old) }
    requires le_order { (2 ≤ order) × (order ≤ 5) }
    ensures { «data».new ≡ filter_volume mode order dims «data».old }
{
    for axis in 0..3 {
        filter_axis(data, dims, axis, order, mode);
    }
}
