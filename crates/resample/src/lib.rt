// The four entries. Each refuses, or prepares the coefficients and sweeps; no caller has checked anything.
#![tactic(auto)]

ghost use Rattle.std.specs.Prelude.{◌≡◌};
ghost use Rattle.resample.specs.Call.{counts_in, call_of, shift_call, zoom_call, filter_call_of, spline_filter_call, spline_filter1d_call};

use crate::write::Sampling;
use coverage::counts::Counts;
use edge::copy;
use prefilter::{filter_axis, filter_volume};
use refusal::verdicts::{
    shift_verdict, spline_filter_verdict, spline_filter1d_verdict, zoom_verdict,
};
use refusal::{Asked, Refusal};
use request::Request;
use request::sizes::{shift_axes, zoom_axes, zoom_dims};

mod write;

pub use refusal::number_in;

// The counts of an answer: none of a refusal.
pub fn counts_in(answer: Result<Counts, Refusal>) -> Counts
    ensures { result ≡ counts_in answer }
{
    answer.unwrap_or(Counts::none())
}

// Not one with zoom: each is its checks and its axes, and what they share is write.
pub fn shift(
    r: Request,
    input: &[f64],
    output: &mut [f64],
    coverage: &mut [u8],
    work: &mut [f64],
) -> Result<Counts, Refusal>
    ensures { call_of result output.new coverage.new work.new ≡ shift_call r input.now output.old coverage.old work.old }
{
    shift_verdict(
        Asked::Volume,
        r,
        input,
        output.len(),
        coverage.len(),
        work.len(),
    )?;
    let axes = shift_axes(r);
    Ok(Sampling { r, axes, input }.write(output, coverage, work))
}

pub fn zoom(
    r: Request,
    input: &[f64],
    output: &mut [f64],
    coverage: &mut [u8],
    work: &mut [f64],
) -> Result<Counts, Refusal>
    ensures { call_of result output.new coverage.new work.new ≡ zoom_call r input.now output.old coverage.old work.old }
{
    zoom_verdict(
        Asked::Volume,
        r,
        input,
        output.len(),
        coverage.len(),
        work.len(),
    )?;
    let axes = zoom_axes(r, zoom_dims(r));
    Ok(Sampling { r, axes, input }.write(output, coverage, work))
}

pub fn spline_filter(r: Request, input: &[f64], output: &mut [f64]) -> Result<(), Refusal>
    ensures { filter_call_of result output.new ≡ spline_filter_call r input.now output.old }
{
    spline_filter_verdict(r, input, output.len())?;
    copy(output, input);
    filter_volume(output, r.dims, r.order, r.mode);
    Ok(())
}

pub fn spline_filter1d(
    r: Request,
    axis: usize,
    input: &[f64],
    output: &mut [f64],
) -> Result<(), Refusal>
    ensures { filter_call_of result output.new ≡ spline_filter1d_call r axis input.now output.old }
{
    spline_filter1d_verdict(r, axis, input, output.len())?;
    copy(output, input);
    if r.order > 1 {
        filter_axis(output, r.dims, axis, r.order, r.mode);
    }
    Ok(())
}
