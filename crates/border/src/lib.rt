// The six border modes, and the fold that brings a coordinate beyond the border back: the Rust's
// `map_coordinates`, operation by operation, and for Replicate, which the Rust does not have, the clamp.
// Every function here takes any numbers.
#![tactic(auto)]

ghost use Rattle.std.specs.Prelude.{◌≡◌};
ghost use Rattle.border.specs.Fold.{under, over, fold, fold_constant, fold_mirror, fold_nearest, fold_reflect, fold_wrap, fold_replicate};

// How the volume goes on beyond its border. Only Constant carries a fill. Nearest is the Rust's, and drops
// a coordinate at or below -1; Replicate is what the SciPy manual calls nearest.
#[derive(Clone, Copy)]
pub enum BorderMode {
    Constant(f64),
    Mirror,
    Nearest,
    Reflect,
    Wrap,
    Replicate,
}

// The coordinate `idx` of an axis of length `len`, folded by the mode.
pub fn map_coordinates(idx: f64, len: f64, mode: BorderMode) -> f64
    ensures { result ≡ fold mode idx len }
{
    match mode {
        BorderMode::Constant(_) => fold_constant(idx, len),
        BorderMode::Mirror => fold_mirror(idx, len),
        BorderMode::Nearest => fold_nearest(idx, len),
        BorderMode::Reflect => fold_reflect(idx, len),
        BorderMode::Wrap => fold_wrap(idx, len),
        BorderMode::Replicate => fold_replicate(idx, len),
    }
}

// What is left of a coordinate once whole periods are taken from its size: of one below 0, and of one
// beyond the far end.
fn under(period: f64, idx: f64) -> f64
    ensures { result ≡ under period idx }
{
    period * exact::floor(-idx / period) + idx
}

fn over(period: f64, idx: f64) -> f64
    ensures { result ≡ over period idx }
{
    idx - period * exact::floor(idx / period)
}

// Outside becomes -1, the mark for outside.
fn fold_constant(idx: f64, len: f64) -> f64
    ensures { result ≡ fold_constant idx len }
{
    if idx < 0.0 || idx >= len { -1.0 } else { idx }
}

// Outside becomes the end that is nearer.
fn fold_nearest(idx: f64, len: f64) -> f64
    ensures { result ≡ fold_nearest idx len }
{
    if idx < 0.0 {
        0.0
    } else if idx >= len {
        len - 1.0
    } else {
        idx
    }
}

// Clamped to the first and the last voxel. Not one with fold_nearest, which keeps what lies between len - 1 and len.
fn fold_replicate(idx: f64, len: f64) -> f64
    ensures { result ≡ fold_replicate idx len }
{
    let last = len - 1.0;
    if idx < 0.0 {
        0.0
    } else if idx > last {
        last
    } else {
        idx
    }
}

// Reflected about the centres of the end voxels.
fn fold_mirror(idx: f64, len: f64) -> f64
    ensures { result ≡ fold_mirror idx len }
{
    let s2 = 2.0 * len - 2.0;
    if idx < 0.0 {
        let t = under(s2, idx);
        if t <= 1.0 - len { t + s2 } else { -t }
    } else if idx >= len {
        let t = over(s2, idx);
        if t >= len { s2 - t } else { t }
    } else {
        idx
    }
}

// Reflected about the outer faces of the end voxels.
fn fold_reflect(idx: f64, len: f64) -> f64
    ensures { result ≡ fold_reflect idx len }
{
    let s2 = 2.0 * len;
    if idx < 0.0 {
        let t = if idx < -s2 { under(s2, idx) } else { idx };
        if t < -len { t + s2 } else { -t - 1.0 }
    } else if idx >= len {
        let t = over(s2, idx);
        if t >= len { s2 - t - 1.0 } else { t }
    } else {
        idx
    }
}

// Repeated with the period len - 1: the first and the last voxel overlap.
fn fold_wrap(idx: f64, len: f64) -> f64
    ensures { result ≡ fold_wrap idx len }
{
    let s = len - 1.0;
    if idx < 0.0 {
        idx + s * (exact::floor(-idx / s) + 1.0)
    } else if idx >= len {
        over(s, idx)
    } else {
        idx
    }
}
