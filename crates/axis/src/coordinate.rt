// The map from output indices to coordinates, and zoom's output length.
ghost use Rattle.std.specs.Prelude.{◌≡◌, ◌≤◌};
ghost use Rattle.limits.specs.Limits.{longest};
ghost use Rattle.exact.specs.Rounded.{num};
ghost use Rattle.axis.specs.Coordinate.{folds, settled, pads, has_pad, pad_of, shift_axis, zoom_axis};
ghost use Rattle.axis.specs.Length.{output_length};
ghost use Rattle.axis.specs.Bookkeeping.{Zooms, folds_on};

use border::{BorderMode, map_coordinates};
use limits::{edge_of, is_single};

// One axis of a request: its length as padded, the output length, and the map of an output index.
#[derive(Clone, Copy)]
pub struct Axis {
    pub len: usize,
    pub out: usize,
    pub shift: f64,
    pub ratio: f64,
    pub pad: f64,
}

// The float of a length or an index.
pub fn float_of(n: usize) -> f64
    ensures { result ≡ num n }
{
    std::num::nearest_u64_to_f64(n as u64)
}

// Whether the filter of a mode reads edge copies.
fn pads(mode: BorderMode) -> bool
    ensures { result ≡ pads mode }
{
    matches!(mode, BorderMode::Nearest | BorderMode::Replicate)
}

// Whether a request has edge copies.
pub fn has_pad(mode: BorderMode, prefilter: bool, order: usize) -> bool
    ensures { result ≡ has_pad mode prefilter order }
{
    prefilter && order > 1 && pads(mode)
}

// How many stand on each side of an axis.
pub fn pad_of(mode: BorderMode, prefilter: bool, order: usize, length: usize) -> usize
    ensures { result ≡ pad_of mode prefilter order length }
{
    if has_pad(mode, prefilter, order) {
        edge_of(length)
    } else {
        0
    }
}

// Not one with zoom_axis: two maps, whose ratio, shift and lengths all differ; so each bounds the numbers it is given.
pub fn shift_axis(length: usize, shift: f64, pad: usize) -> Axis
    requires { (length ≤ longest) × (pad ≤ 12) }
    ensures { result ≡ shift_axis length shift pad }
{
    Axis {
        len: length + 2 * pad,
        out: length,
        shift: -shift,
        ratio: 1.0,
        pad: float_of(pad),
    }
}

// A single slice stays one: 0 / 0 is never formed.
fn zoom_ratio(length: usize, out: usize) -> f64
    requires { (1 ≤ length) × (1 ≤ out) }
    ensures { result ≡ (zoom_axis length out 0).ratio }
{
    if is_single(length) {
        1.0
    } else {
        float_of(length - 1) / float_of(out - 1)
    }
}

pub fn zoom_axis(length: usize, out: usize, pad: usize) -> Axis
    requires { ((1 ≤ length) × (length ≤ longest)) × ((1 ≤ out) × (pad ≤ 12)) }
    ensures { result ≡ zoom_axis length out pad }
{
    Axis {
        len: length + 2 * pad,
        out,
        shift: 0.0,
        ratio: zoom_ratio(length, out),
        pad: float_of(pad),
    }
}

// When a mode folds a coordinate: never, with its pad, or before the pad is added.
#[derive(Clone, Copy)]
enum When {
    Never,
    WithPad,
    BeforePad,
}

fn folds(mode: BorderMode) -> When
    ensures { result ≡ folds mode }
{
    match mode {
        BorderMode::Nearest => When::Never,
        BorderMode::Constant(_) | BorderMode::Mirror | BorderMode::Reflect | BorderMode::Wrap => {
            When::WithPad
        }
        BorderMode::Replicate => When::BeforePad,
    }
}

// A single slice is not folded.
fn folds_on(len: usize, mode: BorderMode) -> When
    ensures { result ≡ folds_on len mode }
{
    if is_single(len) {
        When::Never
    } else {
        folds(mode)
    }
}

// The coordinate of an output index, settled by the mode.
pub fn settled_at(a: Axis, i: usize, mode: BorderMode) -> f64
    ensures { result ≡ settled mode a i }
{
    let unpadded = (float_of(i) + a.shift) * a.ratio;
    match folds_on(a.len, mode) {
        When::Never => unpadded + a.pad,
        When::WithPad => map_coordinates(unpadded + a.pad, float_of(a.len), mode),
        When::BeforePad => {
            map_coordinates(unpadded, float_of(a.len) - 2.0 * a.pad, mode) + a.pad
        }
    }
}

// Zoom's output length.
pub fn output_length(length: usize, factor: f64) -> usize
    requires { Zooms length factor }
    ensures { result ≡ output_length length factor }
{
    std::num::truncating_f64_to_u64(exact::round_ties_even(float_of(length) * factor)) as usize
}
