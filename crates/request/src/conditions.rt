// The conditions of the refusals.
ghost use Rattle.std.specs.Prelude.{◌≡◌};
ghost use Rattle.request.specs.Conditions.{bad_length, bad_lengths, moves_slice, moves_slices, zooms_slice, zooms_slices, bad_output, bad_outputs, bad_shift, bad_zoom, bad_factors, wild, wild_fill, some_wild, bad_index, bad_indices};

use border::BorderMode;
use limits::{LONGEST, is_single};

pub fn bad_length(n: usize) -> bool
    ensures { result ≡ bad_length n }
{
    n < 1 || n > LONGEST
}

// Of three axes, here and below: a helper over a closure would be no shorter where it is called.
#[tactic(auto, unfolding(crate::specs::Conditions::bad_lengths, lists::specs::Some::some_below))]
pub fn bad_lengths(d: [usize; 3]) -> bool
    ensures { result ≡ bad_lengths d }
{
    bad_length(d[0]) || bad_length(d[1]) || bad_length(d[2])
}

pub fn bad_shift(s: f64) -> bool
    ensures { result ≡ bad_shift s }
{
    !(s > -1048576.0 && s < 1048576.0)
}

#[tactic(auto, unfolding(crate::specs::Conditions::bad_factors, lists::specs::Some::some_below))]
pub fn bad_shifts(f: [f64; 3]) -> bool
    ensures { result ≡ bad_factors bad_shift f }
{
    bad_shift(f[0]) || bad_shift(f[1]) || bad_shift(f[2])
}

pub fn bad_zoom(f: f64) -> bool
    ensures { result ≡ bad_zoom f }
{
    !(f > 0.0 && f <= 4096.0)
}

#[tactic(auto, unfolding(crate::specs::Conditions::bad_factors, lists::specs::Some::some_below))]
pub fn bad_zooms(f: [f64; 3]) -> bool
    ensures { result ≡ bad_factors bad_zoom f }
{
    bad_zoom(f[0]) || bad_zoom(f[1]) || bad_zoom(f[2])
}

// Whether a single slice is shifted: by a number that is neither 0.0 nor -0.0.
pub fn moves_slice(n: usize, shift: f64) -> bool
    ensures { result ≡ moves_slice n shift }
{
    is_single(n) && shift != 0.0
}

#[tactic(auto, unfolding(crate::specs::Conditions::moves_slices, lists::specs::Some::some_below))]
pub fn moves_slices(d: [usize; 3], f: [f64; 3]) -> bool
    ensures { result ≡ moves_slices d f }
{
    moves_slice(d[0], f[0]) || moves_slice(d[1], f[1]) || moves_slice(d[2], f[2])
}

// Whether a single slice is zoomed to another length.
pub fn zooms_slice(n: usize, out: usize) -> bool
    ensures { result ≡ zooms_slice n out }
{
    is_single(n) && out != 1
}

#[tactic(auto, unfolding(crate::specs::Conditions::zooms_slices, lists::specs::Some::some_below))]
pub fn zooms_slices(d: [usize; 3], out: [usize; 3]) -> bool
    ensures { result ≡ zooms_slices d out }
{
    zooms_slice(d[0], out[0]) || zooms_slice(d[1], out[1]) || zooms_slice(d[2], out[2])
}

// An output length of zoom, on an axis that is no single slice.
pub fn bad_output(n: usize, out: usize) -> bool
    ensures { result ≡ bad_output n out }
{
    !is_single(n) && (out < 2 || out > LONGEST)
}

#[tactic(auto, unfolding(crate::specs::Conditions::bad_outputs, lists::specs::Some::some_below))]
pub fn bad_outputs(d: [usize; 3], out: [usize; 3]) -> bool
    ensures { result ≡ bad_outputs d out }
{
    bad_output(d[0], out[0]) || bad_output(d[1], out[1]) || bad_output(d[2], out[2])
}

fn is_wild(v: f64) -> bool
    ensures { result ≡ wild v }
{
    !(v >= -1267650600228229401496703205376.0 && v <= 1267650600228229401496703205376.0)
}

pub fn wild_fill(mode: BorderMode) -> bool
    ensures { result ≡ wild_fill mode }
{
    match mode {
        BorderMode::Constant(fill) => is_wild(fill),
        _ => false,
    }
}

pub fn some_wild(input: &[f64]) -> bool
    ensures { result ≡ some_wild input.now }
{
    input.iter().any(|v| is_wild(*v))
}

pub fn bad_index(out: usize, i: usize) -> bool
    ensures { result ≡ bad_index out i }
{
    out <= i
}

// An index on each axis against the output lengths.
#[tactic(auto, unfolding(crate::specs::Conditions::bad_indices, lists::specs::Some::some_below))]
pub fn bad_indices(out: [usize; 3], at: [usize; 3]) -> bool
    ensures { result ≡ bad_indices out at }
{
    bad_index(out[0], at[0]) || bad_index(out[1], at[1]) || bad_index(out[2], at[2])
}
