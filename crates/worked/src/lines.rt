// One line for each request: what the entry answered, and what it left in the buffers.
ghost use Rattle.std.specs.Prelude.{◌<◌};

use crate::print::{Codes, Numbers, Refused, Tally};
use crate::runs::print_lanes;
use coverage::counts::Counts;
use refusal::Refusal;
use request::Request;
use resample::{counts_in, shift, spline_filter, spline_filter1d, zoom};
use std::io;
use std::num::f64_to_bits_with_nan;

// What the buffers hold before a call: a number that no answer here has, and no code.
const BLANK: f64 = 0.125;

const NO_CODE: u8 = 255;

fn is_blank(buffer: &[f64]) -> bool {
    buffer.iter().all(|x| f64_to_bits_with_nan(*x) == f64_to_bits_with_nan(BLANK))
}

// The lines written, and their number.
#[derive(Drop)]
pub struct Lines<'a, R> {
    rt: &'a R,
    pub written: u64,
}

impl<'a, R: Print> Lines<'a, R> {
    pub fn new(rt: &'a R) -> Lines<'a, R> {
        Lines { rt, written: 0 }
    }

    fn end(&mut self) -> io::Result<()> {
        self.written = self.written.saturating_add(1);
        println!(self.rt; "")
    }

    // The line of a shift or a zoom of 16 voxels, whose last axis comes out `lane` long; answers the
    // volume that comes out.
    fn resampled<const PLACES: usize, F>(
        &mut self,
        name: &str,
        entry: F,
        r: Request,
        input: &[f64],
        lane: usize,
    ) -> io::Result<[f64; PLACES]>
    where
        F: Fn(Request, &[f64], &mut [f64], &mut [u8], &mut [f64]) -> Result<Counts, Refusal> + Drop,
        requires may_call { F.IsAlwaysCallable entry }
        requires some { 0 < lane }
    {
        let mut output = [BLANK; PLACES];
        let mut coverage = [NO_CODE; PLACES];
        let mut work = [BLANK; 16];
        let answer = entry(r, input, &mut output, &mut coverage, &mut work);
        print!(self.rt; "{name}:")?;
        match answer {
            Ok(_) => print_lanes(self.rt, &output, &coverage, lane)?,
            Err(why) => {
                let untouched = is_blank(&output)
                    && is_blank(&work)
                    && coverage.iter().all(|code| *code == NO_CODE);
                print!(self.rt; "{}", Refused { why, untouched })?;
            }
        }
        print!(self.rt; "; counts{}", Tally(counts_in(answer)))?;
        self.end()?;
        Ok(output)
    }

    // Each entry by its name, with the sizes that come of it.
    pub fn shift(&mut self, name: &str, r: Request, input: &[f64]) -> io::Result<[f64; 16]> {
        self.resampled(name, shift, r, input, 4)
    }

    // The last axis comes out 7 long.
    pub fn zoom(&mut self, name: &str, r: Request, input: &[f64]) -> io::Result<[f64; 28]> {
        self.resampled(name, zoom, r, input, 7)
    }

    // The line of a shift of 7 by 7 by 7 voxels: the codes of the lane in the middle, to which the
    // other two axes say 0.
    pub fn middle(&mut self, order: usize, r: Request) -> io::Result<()> {
        let input = [1.0; 343];
        let mut output = [BLANK; 343];
        let mut coverage = [NO_CODE; 343];
        let mut work = [BLANK; 1];
        let answer = shift(r, &input, &mut output, &mut coverage, &mut work);
        let codes = Codes(&coverage[168..175]);
        print!(self.rt; "axis of 7, shift 0, order {order}: codes{codes}")?;
        print!(self.rt; "; counts{}", Tally(counts_in(answer)))?;
        self.end()
    }

    // The line of a filter: every voxel. A filter has no codes and no counts.
    fn filtered(
        &mut self,
        name: &str,
        verdict: Result<(), Refusal>,
        output: &[f64],
    ) -> io::Result<()> {
        print!(self.rt; "{name}:")?;
        match verdict {
            Ok(()) => print!(self.rt; "{}", Numbers(output))?,
            Err(why) => {
                let untouched = is_blank(output);
                print!(self.rt; "{}", Refused { why, untouched })?;
            }
        }
        self.end()
    }

    pub fn spline_filter(&mut self, name: &str, r: Request, input: &[f64]) -> io::Result<()> {
        let mut output = [BLANK; 16];
        let verdict = spline_filter(r, input, &mut output);
        self.filtered(name, verdict, &output)
    }

    pub fn spline_filter1d(
        &mut self,
        name: &str,
        r: Request,
        axis: usize,
        input: &[f64],
    ) -> io::Result<()> {
        let mut output = [BLANK; 16];
        let verdict = spline_filter1d(r, axis, input, &mut output);
        self.filtered(name, verdict, &output)
    }
}
