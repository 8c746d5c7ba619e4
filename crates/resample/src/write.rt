// What an admitted call writes: the coefficients, the values, the codes.
ghost use Rattle.std.specs.Prelude.{◌≡◌, true, ◌≤◌, length, Ok};
ghost use Rattle.prefilter.specs.Volume.{count_of};
ghost use Rattle.request.specs.Sizes.{filters, source_dims, needed};
ghost use Rattle.refusal.specs.Bookkeeping.{Admitted};
ghost use Rattle.coverage.specs.Coverage.{counts_of};
ghost use Rattle.resample.specs.Bookkeeping.{Admitted-prop, places};
ghost use Rattle.resample.specs.Call.{source_of, coefficients, call_of, values_of, codes_of, work_after, success};

use axis::coordinate::has_pad;
use coverage::counts::{Counts, count_codes};
use coverage::cover::cover;
use edge::{copy, pad};
use prefilter::filter_volume;
use request::sizes::{filters, needed, source_dims};
use request::{Axes, Request};
use voxels::sweep::sweep;

// What an admitted call reads.
#[derive(Clone, Copy)]
pub(crate) struct Sampling<'a> {
    pub r: Request,
    pub axes: Axes,
    pub input: &'a [f64],
    ghost admitted: { Admitted r axes (length input.now) } by { Admitted-prop r axes (length input.now) },
}

impl<'a> Sampling<'a> {
    // What is filtered: the input, or the input with its edge copies.
    fn take_source(&self, work: &mut [f64])
        requires { length work.old ≡ count_of (source_dims self.now.r) }
        ensures { work.new ≡ source_of self.now.r self.now.input.now }
    {
        if has_pad(self.r.mode, self.r.prefilter, self.r.order) {
            pad(work, self.input, self.r.dims);
        } else {
            copy(work, self.input);
        }
    }

    // The coefficients, into as many places as they need.
    fn prepare(&self, work: &mut [f64])
        requires filters { filters self.now.r ≡ true }
        requires work_len { length work.old ≡ count_of (source_dims self.now.r) }
        ensures { work.new ≡ coefficients self.now.r self.now.input.now }
    {
        self.take_source(work);
        filter_volume(work, source_dims(self.r), self.r.order, self.r.mode);
    }

    // The values, from the coefficients, which then stand in work, or from the input itself.
    fn write_values(&self, output: &mut [f64], work: &mut [f64])
        requires output_len { length output.old ≡ places self.now.axes }
        requires room { needed self.now.r ≤ length work.old }
        ensures values { output.new ≡ values_of self.now.r self.now.axes self.now.input.now }
        ensures work { work.new ≡ work_after self.now.r self.now.input.now work.old }
    {
        let Axes { x, y, z } = self.axes;
        // a sweep in each: the borrow check does not know a reference that is one of two
        if filters(self.r) {
            let front = &mut work[..needed(self.r)];
            self.prepare(front);
            sweep(output, front, x, y, z, self.r.order, self.r.mode);
        } else {
            sweep(output, self.input, x, y, z, self.r.order, self.r.mode);
        }
    }

    // The codes, and their counts.
    fn write_codes(&self, coverage: &mut [u8]) -> Counts
        requires { length coverage.old ≡ places self.now.axes }
        ensures { (coverage.new ≡ codes_of self.now.r self.now.axes) × (result ≡ counts_of (codes_of self.now.r self.now.axes)) }
    {
        let Axes { x, y, z } = self.axes;
        cover(coverage, x, y, z, self.r.order, self.r.mode);
        count_codes(coverage)
    }

    // All that a success writes, and its counts.
    pub(crate) fn write(&self, output: &mut [f64], coverage: &mut [u8], work: &mut [f64]) -> Counts
        requires lengths { (length output.old ≡ places self.now.axes) × (length coverage.old ≡ places self.now.axes) }
        requires room { needed self.now.r ≤ length work.old }
        ensures { call_of (Ok result) output.new coverage.new work.new ≡ success self.now.r self.now.axes self.now.input.now work.old }
    {
        self.write_values(output, work);
        self.write_codes(coverage)
    }
}
