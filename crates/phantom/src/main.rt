// Demand 3, run: whole shifts move the voxels of a phantom exactly, and the opposite shifts bring them
// back. Every voxel is compared; `stdout` holds the program to the totals.
#![tactic(auto)]

ghost use Rattle.std.specs.Prelude.{◌≤◌};

use border::BorderMode;
use coverage::counts::Counts;
use refusal::Refusal;
use request::Request;
use resample::{counts_in, shift};
use std::io;
use steps::{ALL, NEAR, Steps, VOXELS};
use volume::{FILL, moved_wrong, phantom, returned_wrong};

mod steps;
mod volume;

const BLANK: f64 = 0.125;

const NO_CODE: u8 = 255;

// How many shifts were run, moved every voxel exactly, and were brought back; how many voxels the
// shifts counted inside and filled; how many voxels were wrong, there or back.
#[derive(Clone, Copy, Default)]
struct Totals {
    shifts: usize,
    moved: usize,
    returned: usize,
    inside: usize,
    filled: usize,
    wrong: usize,
}

impl Totals {
    fn plus(self, other: Totals) -> Totals {
        Totals {
            shifts: self.shifts.wrapping_add(other.shifts),
            moved: self.moved.wrapping_add(other.moved),
            returned: self.returned.wrapping_add(other.returned),
            inside: self.inside.wrapping_add(other.inside),
            filled: self.filled.wrapping_add(other.filled),
            wrong: self.wrong.wrapping_add(other.wrong),
        }
    }
}

fn ask(steps: Steps, order: usize, prefilter: bool) -> Request {
    Request {
        dims: [3, 4, 5],
        factors: steps.numbers(),
        order,
        prefilter,
        mode: BorderMode::Constant(FILL),
    }
}

// Whether the shift was done, its counts are right and no voxel is wrong.
fn is_exact(answer: Result<Counts, Refusal>, staying: usize, wrong: usize) -> bool
    requires { staying ≤ 60 }
{
    let counts = counts_in(answer);
    let inside = counts.computed == staying && counts.filled == VOXELS - staying;
    let others = counts.defaulted == 0 && counts.folded == 0;
    answer.is_ok() && inside && others && wrong == 0
}

// One shift of the phantom, at the order `there`, and its opposite, at the order `back`. The buffers
// hold before what no answer has. These orders need no work.
fn run(n: usize, there: usize, back: usize, phantom: &[f64; VOXELS]) -> Totals {
    let steps = Steps::numbered(n);
    let opposite = steps.opposite();
    let prefilter = n % 2 == 0;
    let mut moved = [BLANK; VOXELS];
    let mut returned = [BLANK; VOXELS];
    let mut codes = [NO_CODE; VOXELS];
    let mut work = [BLANK; 1];
    let first = shift(
        ask(steps, there, prefilter),
        phantom,
        &mut moved,
        &mut codes,
        &mut work,
    );
    let wrong = moved_wrong(phantom, &moved, &codes, steps);
    let second = shift(
        ask(opposite, back, !prefilter),
        &moved,
        &mut returned,
        &mut codes,
        &mut work,
    );
    let wrong_back = returned_wrong(phantom, &returned, opposite);
    let staying = steps.staying();
    let counts = counts_in(first);
    Totals {
        shifts: 1,
        moved: usize::from(is_exact(first, staying, wrong)),
        returned: usize::from(is_exact(second, staying, wrong_back)),
        inside: counts.computed,
        filled: counts.filled,
        wrong: wrong.wrapping_add(wrong_back),
    }
}

fn run_all(first: usize, end: usize, there: usize, back: usize, phantom: &[f64; VOXELS]) -> Totals {
    (first..end).fold(Totals::default(), |t, n| {
        t.plus(run(n, there, back, phantom))
    })
}

fn main(rt: HostRuntime) -> io::Result<()> {
    let phantom = phantom();
    let mut wrong = 0usize;
    for (name, first, end) in [("shifts", 0, NEAR), ("far shifts", NEAR, ALL)] {
        for (there, back) in [(0, 1), (1, 0)] {
            let t = run_all(first, end, there, back, &phantom);
            print!(rt; "{} {name}, order {there}: ", t.shifts)?;
            print!(rt; "{} moved exactly, {} brought back; ", t.moved, t.returned)?;
            println!(rt; "{} voxels inside, {} filled", t.inside, t.filled)?;
            wrong = wrong.wrapping_add(t.wrong);
        }
    }
    println!(rt; "{wrong} voxels differ")
}
