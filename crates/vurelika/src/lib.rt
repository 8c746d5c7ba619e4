// The door for C: the four entries, one voxel and one axis of two of them, the files of NumPy, and the lengths of what
// a caller lends. A slice is a pointer, then a length. No caller has checked anything.
// The doors of a pair differ in the entry alone. One function over the entry would be longer than its two bodies.
#![tactic(auto)]

ghost use Rattle.std.specs.Prelude.{◌≡◌, [], ◌∷◌};
ghost use Rattle.resample.specs.Call.{shift_call, zoom_call, spline_filter_call, spline_filter1d_call};
ghost use Rattle.one_voxel.specs.Call.{shift_voxel_call, zoom_voxel_call};
ghost use Rattle.npy.specs.Call.{dims_call, read_call, size_call, write_call};
ghost use Rattle.numbers.specs.Numbers.{request_of, plain_request_of};
ghost use Rattle.vurelika.specs.Door.{door_of, door_by, filter_door_of, filter_door_by, voxel_door_of, voxel_door_by, shift_pointing, zoom_pointing, point_door_of, point_door_by, npy_door_of, npy_door, zoom_length, work_count};

use axis::coordinate::output_length;
use numbers::reports::{PLACES, clear, report};
use numbers::requests::{mode_in, plain_request_in, request_in};
use one_voxel::point::{shift_point, zoom_point};
use one_voxel::{shift_voxel, zoom_voxel};
use refusal::number_in;
use request::conditions::{bad_length, bad_lengths, bad_output, bad_zoom, zooms_slice};
use request::sizes::needed;
use resample::{shift, spline_filter, spline_filter1d, zoom};

// The answer to a mode that has no number.
const UNKNOWN_MODE: u32 = 255;

#[unsafe(no_mangle)]
pub extern "C" fn vurelika_shift(
    d0: usize,
    d1: usize,
    d2: usize,
    f0: f64,
    f1: f64,
    f2: f64,
    order: usize,
    prefilter: u32,
    mode: u32,
    fill: f64,
    input: &[f64],
    output: &mut [f64],
    coverage: &mut [u8],
    work: &mut [f64],
    counts: &mut [u64],
) -> u32
    ensures { door_of result output.new coverage.new work.new counts.new ≡ door_by shift_call mode (request_of d0 d1 d2 f0 f1 f2 order prefilter mode fill) input.now output.old coverage.old work.old counts.old }
{
    match request_in(d0, d1, d2, f0, f1, f2, order, prefilter, mode, fill) {
        Some(r) => {
            if counts.len() == PLACES {
                report(counts, shift(r, input, output, coverage, work))
            } else {
                // no request has an empty output: the entry refuses
                number_in(shift(r, input, &mut output[0..0], coverage, work))
            }
        }
        None => {
            clear(counts);
            UNKNOWN_MODE
        }
    }
}

#[unsafe(no_mangle)]
pub extern "C" fn vurelika_zoom(
    d0: usize,
    d1: usize,
    d2: usize,
    f0: f64,
    f1: f64,
    f2: f64,
    order: usize,
    prefilter: u32,
    mode: u32,
    fill: f64,
    input: &[f64],
    output: &mut [f64],
    coverage: &mut [u8],
    work: &mut [f64],
    counts: &mut [u64],
) -> u32
    ensures { door_of result output.new coverage.new work.new counts.new ≡ door_by zoom_call mode (request_of d0 d1 d2 f0 f1 f2 order prefilter mode fill) input.now output.old coverage.old work.old counts.old }
{
    match request_in(d0, d1, d2, f0, f1, f2, order, prefilter, mode, fill) {
        Some(r) => {
            if counts.len() == PLACES {
                report(counts, zoom(r, input, output, coverage, work))
            } else {
                // no request has an empty output: the entry refuses
                number_in(zoom(r, input, &mut output[0..0], coverage, work))
            }
        }
        None => {
            clear(counts);
            UNKNOWN_MODE
        }
    }
}

#[unsafe(no_mangle)]
pub extern "C" fn vurelika_spline_filter(
    d0: usize,
    d1: usize,
    d2: usize,
    order: usize,
    mode: u32,
    fill: f64,
    input: &[f64],
    output: &mut [f64],
) -> u32
    ensures { filter_door_of result output.new ≡ filter_door_by mode (spline_filter_call (plain_request_of d0 d1 d2 order 0 mode fill) input.now output.old) output.old }
{
    match plain_request_in(d0, d1, d2, order, 0, mode, fill) {
        Some(r) => number_in(spline_filter(r, input, output)),
        None => UNKNOWN_MODE,
    }
}

#[unsafe(no_mangle)]
pub extern "C" fn vurelika_spline_filter1d(
    d0: usize,
    d1: usize,
    d2: usize,
    order: usize,
    axis: usize,
    mode: u32,
    fill: f64,
    input: &[f64],
    output: &mut [f64],
) -> u32
    ensures { filter_door_of result output.new ≡ filter_door_by mode (spline_filter1d_call (plain_request_of d0 d1 d2 order 0 mode fill) axis input.now output.old) output.old }
{
    match plain_request_in(d0, d1, d2, order, 0, mode, fill) {
        Some(r) => number_in(spline_filter1d(r, axis, input, output)),
        None => UNKNOWN_MODE,
    }
}

#[unsafe(no_mangle)]
pub extern "C" fn vurelika_shift_voxel(
    d0: usize,
    d1: usize,
    d2: usize,
    f0: f64,
    f1: f64,
    f2: f64,
    order: usize,
    prefilter: u32,
    mode: u32,
    fill: f64,
    input: &[f64],
    work: &[f64],
    x: usize,
    y: usize,
    z: usize,
    value: &mut [f64],
    code: &mut [u8],
) -> u32
    ensures { voxel_door_of result value.new code.new ≡ voxel_door_by mode (shift_voxel_call (request_of d0 d1 d2 f0 f1 f2 order prefilter mode fill) input.now work.now (x ∷ y ∷ z ∷ []) value.old code.old) value.old code.old }
{
    match request_in(d0, d1, d2, f0, f1, f2, order, prefilter, mode, fill) {
        Some(r) => number_in(shift_voxel(r, input, work, [x, y, z], value, code)),
        None => UNKNOWN_MODE,
    }
}

#[unsafe(no_mangle)]
pub extern "C" fn vurelika_zoom_voxel(
    d0: usize,
    d1: usize,
    d2: usize,
    f0: f64,
    f1: f64,
    f2: f64,
    order: usize,
    prefilter: u32,
    mode: u32,
    fill: f64,
    input: &[f64],
    work: &[f64],
    x: usize,
    y: usize,
    z: usize,
    value: &mut [f64],
    code: &mut [u8],
) -> u32
    ensures { voxel_door_of result value.new code.new ≡ voxel_door_by mode (zoom_voxel_call (request_of d0 d1 d2 f0 f1 f2 order prefilter mode fill) input.now work.now (x ∷ y ∷ z ∷ []) value.old code.old) value.old code.old }
{
    match request_in(d0, d1, d2, f0, f1, f2, order, prefilter, mode, fill) {
        Some(r) => number_in(zoom_voxel(r, input, work, [x, y, z], value, code)),
        None => UNKNOWN_MODE,
    }
}

// What one axis of a voxel's sum reads: for whoever checks it on paper.
#[unsafe(no_mangle)]
pub extern "C" fn vurelika_shift_point(
    length: usize,
    shift: f64,
    order: usize,
    prefilter: u32,
    mode: u32,
    index: usize,
    coordinate: &mut [f64],
    neighbours: &mut [usize],
    weights: &mut [f64],
) -> u32
    ensures { point_door_of result coordinate.new neighbours.new weights.new ≡ point_door_by (shift_pointing length shift order index) prefilter mode coordinate.old neighbours.old weights.old }
{
    match mode_in(mode, 0.0) {
        Some(mode) => {
            number_in(shift_point(
                length,
                shift,
                order,
                prefilter != 0,
                mode,
                index,
                coordinate,
                neighbours,
                weights,
            ))
        }
        None => UNKNOWN_MODE,
    }
}

#[unsafe(no_mangle)]
pub extern "C" fn vurelika_zoom_point(
    length: usize,
    factor: f64,
    order: usize,
    prefilter: u32,
    mode: u32,
    index: usize,
    coordinate: &mut [f64],
    neighbours: &mut [usize],
    weights: &mut [f64],
) -> u32
    ensures { point_door_of result coordinate.new neighbours.new weights.new ≡ point_door_by (zoom_pointing length factor order index) prefilter mode coordinate.old neighbours.old weights.old }
{
    match mode_in(mode, 0.0) {
        Some(mode) => {
            number_in(zoom_point(
                length,
                factor,
                order,
                prefilter != 0,
                mode,
                index,
                coordinate,
                neighbours,
                weights,
            ))
        }
        None => UNKNOWN_MODE,
    }
}

// A volume is lent as the voxels' bits, which is what its f64 are in memory.
#[unsafe(no_mangle)]
pub extern "C" fn vurelika_npy_dims(bytes: &[u8], dims: &mut [usize]) -> u32
    ensures { npy_door_of result dims.new ≡ npy_door (dims_call bytes.now dims.old) }
{
    number_in(npy::dims(bytes, dims))
}

#[unsafe(no_mangle)]
pub extern "C" fn vurelika_npy_read(bytes: &[u8], volume: &mut [u64]) -> u32
    ensures { npy_door_of result volume.new ≡ npy_door (read_call bytes.now volume.old) }
{
    number_in(npy::read(bytes, volume))
}

#[unsafe(no_mangle)]
pub extern "C" fn vurelika_npy_size(d0: usize, d1: usize, d2: usize) -> usize
    ensures { result ≡ size_call (d0 ∷ d1 ∷ d2 ∷ []) }
{
    npy::size([d0, d1, d2])
}

#[unsafe(no_mangle)]
pub extern "C" fn vurelika_npy_write(
    d0: usize,
    d1: usize,
    d2: usize,
    volume: &[u64],
    bytes: &mut [u8],
) -> u32
    ensures { npy_door_of result bytes.new ≡ npy_door (write_call (d0 ∷ d1 ∷ d2 ∷ []) volume.now bytes.old) }
{
    number_in(npy::write([d0, d1, d2], volume, bytes))
}

// Zoom's output length; 0 where refusal 3, 4, 12 or 5 would answer.
#[tactic(auto, unfolding(crate::specs::Door::zoom_length))]
#[unsafe(no_mangle)]
pub extern "C" fn vurelika_zoom_length(length: usize, factor: f64) -> usize
    ensures { result ≡ zoom_length length factor }
{
    if bad_length(length) || bad_zoom(factor) {
        return 0;
    }
    let n = output_length(length, factor);
    if zooms_slice(length, n) || bad_output(length, n) {
        0
    } else {
        n
    }
}

// How many places of work a call needs; 0 where no call is answered, whatever the work.
#[tactic(auto, unfolding(crate::specs::Door::work_count))]
#[unsafe(no_mangle)]
pub extern "C" fn vurelika_work_count(
    d0: usize,
    d1: usize,
    d2: usize,
    order: usize,
    prefilter: u32,
    mode: u32,
) -> usize
    ensures { result ≡ work_count d0 d1 d2 order prefilter mode }
{
    match plain_request_in(d0, d1, d2, order, prefilter, mode, 0.0) {
        Some(r) if order <= 5 && !bad_lengths(r.dims) => needed(r),
        _ => 0,
    }
}
