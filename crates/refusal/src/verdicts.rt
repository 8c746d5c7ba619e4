// Which refusal a call meets first, if any. Numbers are tested before voxels, and nothing is written.
ghost use Rattle.std.specs.Prelude.{◌≡◌, ◌||◌, ltb};
ghost use Rattle.request.specs.Bookkeeping.{Lengths};
ghost use Rattle.request.specs.Conditions.{too_large, wrong, wild_fill, some_wild, beside_any};
ghost use Rattle.refusal.specs.Refusals.{first, places_of, resample_checks, shift_checks, zoom_checks, index_checks, shift_voxel_checks, zoom_voxel_checks, filter_checks, spline_filter_checks, spline_filter1d_checks};

use crate::{Asked, Refusal, refuse_if};
use axis::point::some_beside;
use border::BorderMode;
use limits::MOST_PLACES;
use request::conditions::{
    bad_indices, bad_lengths, bad_outputs, bad_shifts, bad_zooms, moves_slices, some_wild,
    wild_fill, zooms_slices,
};
use request::sizes::{count_of, needed, shift_axes, zoom_axes, zoom_dims};
use request::{Axes, Request};

fn too_large(n: usize) -> bool
    ensures { result ≡ too_large n }
{
    n > MOST_PLACES
}

fn some_too_large(input: usize, output: usize, work: usize) -> bool
    ensures { result ≡ (too_large input || too_large output || too_large work) }
{
    too_large(input) || too_large(output) || too_large(work)
}

// The lengths of the lent buffers against their counts, one by one, as in the list of checks.
fn some_wrong(
    input: usize,
    count: usize,
    output: usize,
    coverage: usize,
    wanted: usize,
    work: usize,
    need: usize,
) -> bool
    ensures { result ≡ (wrong input count || wrong output wanted || wrong coverage wanted || ltb work need) }
{
    input != count || output != wanted || coverage != wanted || work < need
}

fn wild_any(mode: BorderMode, input: &[f64]) -> bool
    ensures { result ≡ (wild_fill mode || some_wild input.now) }
{
    wild_fill(mode) || some_wild(input)
}

#[tactic(auto, unfolding(request::specs::Conditions::beside_any))]
fn beside_any(r: Request, a: Axes) -> bool
    ensures { result ≡ beside_any r a }
{
    r.order == 0
        && (some_beside(a.x, r.mode) || some_beside(a.y, r.mode) || some_beside(a.z, r.mode))
}

// How many places are lent for values, and as many for codes; `count` is the output's.
fn places_of(asked: Asked, count: usize) -> usize
    ensures { result ≡ places_of asked count }
{
    match asked {
        Asked::Volume => count,
        Asked::Voxel => 1,
    }
}

// Refusals 6 to 9 of shift and zoom. Lengths and counts stand one by one, as in the list of checks.
fn resample_verdict(
    asked: Asked,
    r: Request,
    input: &[f64],
    output: usize,
    coverage: usize,
    work: usize,
    out: [usize; 3],
    a: Axes,
) -> Result<(), Refusal>
    requires lengths { Lengths r.dims }
    requires lengths_2 { Lengths out }
    ensures { result ≡ first (resample_checks asked r input.now output coverage work out a) }
{
    let count = count_of(r.dims);
    let wanted = count_of(out);
    let need = needed(r);
    refuse_if(some_too_large(count, wanted, need), Refusal::Count)?;
    let places = places_of(asked, wanted);
    refuse_if(
        some_wrong(input.len(), count, output, coverage, places, work, need),
        Refusal::Buffer,
    )?;
    refuse_if(wild_any(r.mode, input), Refusal::Value)?;
    refuse_if(beside_any(r, a), Refusal::Beside)
}

// Not one with zoom_verdict: what the lists share is resample_verdict, and all but two other lines differ.
pub fn shift_verdict(
    asked: Asked,
    r: Request,
    input: &[f64],
    output: usize,
    coverage: usize,
    work: usize,
) -> Result<(), Refusal>
    ensures { result ≡ first (shift_checks asked r input.now output coverage work) }
{
    refuse_if(r.order > 5, Refusal::Order)?;
    refuse_if(bad_lengths(r.dims), Refusal::Length)?;
    refuse_if(bad_shifts(r.factors), Refusal::Factor)?;
    refuse_if(moves_slices(r.dims, r.factors), Refusal::Slice)?;
    resample_verdict(
        asked,
        r,
        input,
        output,
        coverage,
        work,
        r.dims,
        shift_axes(r),
    )
}

pub fn zoom_verdict(
    asked: Asked,
    r: Request,
    input: &[f64],
    output: usize,
    coverage: usize,
    work: usize,
) -> Result<(), Refusal>
    ensures { result ≡ first (zoom_checks asked r input.now output coverage work) }
{
    refuse_if(r.order > 5, Refusal::Order)?;
    refuse_if(bad_lengths(r.dims), Refusal::Length)?;
    refuse_if(bad_zooms(r.factors), Refusal::Factor)?;
    let out = zoom_dims(r);
    refuse_if(zooms_slices(r.dims, out), Refusal::Slice)?;
    refuse_if(bad_outputs(r.dims, out), Refusal::OutputLength)?;
    resample_verdict(
        asked,
        r,
        input,
        output,
        coverage,
        work,
        out,
        zoom_axes(r, out),
    )
}

// Refusal 11 of one voxel.
fn index_verdict(out: [usize; 3], at: [usize; 3]) -> Result<(), Refusal>
    ensures { result ≡ first (index_checks out at) }
{
    refuse_if(bad_indices(out, at), Refusal::Index)
}

// Not one with zoom_voxel_verdict: each is its own list and one check more. `value` and `code` are lengths.
pub fn shift_voxel_verdict(
    r: Request,
    input: &[f64],
    value: usize,
    code: usize,
    work: usize,
    at: [usize; 3],
) -> Result<(), Refusal>
    ensures { result ≡ first (shift_voxel_checks r input.now value code work at) }
{
    shift_verdict(Asked::Voxel, r, input, value, code, work)?;
    index_verdict(r.dims, at)
}

pub fn zoom_voxel_verdict(
    r: Request,
    input: &[f64],
    value: usize,
    code: usize,
    work: usize,
    at: [usize; 3],
) -> Result<(), Refusal>
    ensures { result ≡ first (zoom_voxel_checks r input.now value code work at) }
{
    zoom_verdict(Asked::Voxel, r, input, value, code, work)?;
    index_verdict(zoom_dims(r), at)
}

// Refusals 3 and 6 to 8 of the two filters.
fn filter_verdict(r: Request, input: &[f64], output: usize) -> Result<(), Refusal>
    ensures { result ≡ first (filter_checks r input.now output) }
{
    refuse_if(bad_lengths(r.dims), Refusal::Length)?;
    let count = count_of(r.dims);
    refuse_if(too_large(count), Refusal::Count)?;
    refuse_if(input.len() != count || output != count, Refusal::Buffer)?;
    refuse_if(wild_any(r.mode, input), Refusal::Value)
}

pub fn spline_filter_verdict(r: Request, input: &[f64], output: usize) -> Result<(), Refusal>
    ensures { result ≡ first (spline_filter_checks r input.now output) }
{
    refuse_if(r.order < 2 || r.order > 5, Refusal::Order)?;
    filter_verdict(r, input, output)
}

pub fn spline_filter1d_verdict(
    r: Request,
    axis: usize,
    input: &[f64],
    output: usize,
) -> Result<(), Refusal>
    ensures { result ≡ first (spline_filter1d_checks r axis input.now output) }
{
    refuse_if(r.order > 5, Refusal::Order)?;
    refuse_if(axis > 2, Refusal::AxisNumber)?;
    filter_verdict(r, input, output)
}
