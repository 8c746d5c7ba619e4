// How many voxels bear each code.
ghost use Rattle.std.specs.Prelude.{◌≡◌, ◌<◌};
ghost use Rattle.coverage.specs.Coverage.{none, with_code, counts_of, total};

#[derive(Clone, Copy)]
pub struct Counts {
    pub computed: usize,
    pub filled: usize,
    pub defaulted: usize,
    pub folded: usize,
}

impl Counts {
    pub fn none() -> Counts
        ensures { result ≡ none }
    {
        Counts {
            computed: 0,
            filled: 0,
            defaulted: 0,
            folded: 0,
        }
    }

    // The counts with one code more, a byte of a lent coverage. 1 or 0 is added without a branch, so
    // that codes may change from voxel to voxel at no cost.
    pub(crate) fn with(mut self, code: u8) -> Counts
        requires { total self < 18446744073709551615 }
        ensures { result ≡ with_code self code }
    {
        if code == 0 {
            self.computed += 1;
        } else {
            self.filled += usize::from(code == 1);
            self.defaulted += usize::from(code == 2);
            self.folded += usize::from(code > 2);
        }
        self
    }
}

// The counts of a coverage.
pub fn count_codes(coverage: &[u8]) -> Counts
    ensures { result ≡ counts_of coverage.now }
{
    let mut counts = Counts::none();
    for code in coverage {
        counts = counts.with(*code);
    }
    counts
}
