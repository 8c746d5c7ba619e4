// The limits that document 01 sets, each by its name, and the axis of one voxel.
#![tactic(auto)]

ghost use Rattle.std.specs.Prelude.{◌≡◌, ◌≤◌};
ghost use Rattle.limits.specs.Limits.{longest_padded, single, edge_of, wide_of};

// The longest axis, of input and output.
pub const LONGEST: usize = 4096;

// The longest axis as padded, twelve edge copies on each side: 4,120, the numbers of a line.
pub const LONGEST_PADDED: usize = LONGEST + 24;

// The most places of input, output and work: 2^27.
pub const MOST_PLACES: usize = 1 << 27;

// Whether an axis has one voxel: a single slice.
pub fn is_single(n: usize) -> bool
    ensures { result ≡ single n }
{
    n == 1
}

// How many edge copies stand on each side of an axis, where there are any.
pub fn edge_of(n: usize) -> usize
    ensures { result ≡ edge_of n }
{
    if is_single(n) { 0 } else { 12 }
}

// Its length with them.
pub fn wide_of(n: usize) -> usize
    requires { n ≤ longest_padded }
    ensures { result ≡ wide_of n }
{
    n + 2 * edge_of(n)
}
