// The coverage of a volume: the code of every voxel. No voxel is read here. Axis, order and mode stand side by side, as
// in the definitions.
ghost use Rattle.std.specs.Prelude.{◌≡◌, ◌*◌, ◌≤◌, length, get_or};
ghost use Rattle.limits.specs.Limits.{longest};
ghost use Rattle.lists.specs.Tabulate.{tabulate};
ghost use Rattle.lists.specs.Bookkeeping.{Filled};
ghost use Rattle.coverage.specs.Coverage.{number_of_code, dropped, drop_value, kept_at, own_code, own_codes};
ghost use Rattle.coverage.specs.Bookkeeping.{axis_code, joined, code_in_plane, code_by_axes};

use crate::codes::Code;
use axis::coordinate::{Axis, settled_at};
use axis::folded::is_folded;
use border::BorderMode;
use limits::LONGEST;

// The code of a dropped voxel.
pub fn drop_code(mode: BorderMode) -> Code
    ensures { result ≡ dropped mode }
{
    match mode {
        BorderMode::Constant(_) => Code::Filled,
        _ => Code::Defaulted,
    }
}

// And its value.
pub fn drop_value(mode: BorderMode) -> f64
    ensures { result ≡ drop_value mode }
{
    match mode {
        BorderMode::Constant(fill) => fill,
        _ => 0.0,
    }
}

fn is_kept(a: Axis, i: usize, mode: BorderMode) -> bool
    ensures { result ≡ kept_at mode a i }
{
    settled_at(a, i, mode) > -1.0
}

// What an axis says of its output index.
fn axis_code(a: Axis, i: usize, order: usize, mode: BorderMode) -> Code
    requires { order ≤ 5 }
    ensures { result ≡ axis_code order mode a i }
{
    if !is_kept(a, i, mode) {
        drop_code(mode)
    } else if is_folded(a, i, order, mode) {
        Code::Folded
    } else {
        Code::Computed
    }
}

// And of all of them.
fn axis_codes(codes: &mut [Code], a: Axis, order: usize, mode: BorderMode)
    requires { (order ≤ 5) × (a.out ≤ length codes.old) }
    ensures { Filled (axis_code order mode a) Code.Computed codes.new a.out }
{
    for i in 0..a.out {
        codes[i] = axis_code(a, i, order, mode);
    }
}

// Dropped by one of two axes, else folded by one of them.
fn join(c: Code, d: Code) -> Code
    ensures { result ≡ joined c d }
{
    match (c, d) {
        (Code::Computed, _) => d,
        (_, Code::Computed) => c,
        (Code::Folded, _) => d,
        _ => c,
    }
}

// The code of one voxel, as the byte that its caller is lent. Axes and indices stand one by one, as in the
// definition own_code.
pub fn own_code(
    xa: Axis,
    ya: Axis,
    za: Axis,
    order: usize,
    mode: BorderMode,
    x: usize,
    y: usize,
    z: usize,
) -> u8
    requires { order ≤ 5 }
    ensures { result ≡ own_code order mode xa ya za x y z }
{
    let others = join(axis_code(xa, x, order, mode), axis_code(ya, y, order, mode));
    u8::from(join(others, axis_code(za, z, order, mode)))
}

// A row of which the other two axes say `others`.
fn cover_row(row: &mut [u8], others: Code, zs: &[Code])
    requires { length row.old ≡ length zs.now }
    ensures { row.new ≡ tabulate (length zs.now) (λ k. number_of_code (joined others (get_or zs.now k Code.Computed))) }
{
    for (k, code) in row.iter_mut().enumerate() {
        *code = u8::from(join(others, zs[k]));
    }
}

// A plane of which axis 0 says `first`.
fn cover_plane(plane: &mut [u8], first: Code, ys: &[Code], zs: &[Code])
    requires { length plane.old ≡ length ys.now * length zs.now }
    ensures { plane.new ≡ tabulate (length ys.now * length zs.now) (code_in_plane first ys.now zs.now) }
{
    let row = zs.len();
    for (j, y) in ys.iter().enumerate() {
        cover_row(&mut plane[j * row..(j + 1) * row], join(first, *y), zs);
    }
}

// The planes.
fn cover_planes(coverage: &mut [u8], xs: &[Code], ys: &[Code], zs: &[Code])
    requires le_longest { (length ys.now ≤ longest) × (length zs.now ≤ longest) }
    requires coverage_len { length coverage.old ≡ length xs.now * (length ys.now * length zs.now) }
    ensures { coverage.new ≡ tabulate (length xs.now * (length ys.now * length zs.now)) (code_by_axes xs.now ys.now zs.now) }
{
    let plane = ys.len() * zs.len();
    for (i, x) in xs.iter().enumerate() {
        cover_plane(&mut coverage[i * plane..(i + 1) * plane], *x, ys, zs);
    }
}

// The whole coverage. The axes stand one by one, as in the definition own_codes.
pub fn cover(coverage: &mut [u8], xa: Axis, ya: Axis, za: Axis, order: usize, mode: BorderMode)
    requires order_bound { order ≤ 5 }
    requires coverage_len { length coverage.old ≡ xa.out * (ya.out * za.out) }
    requires out_le_longest { (xa.out ≤ longest) × ((ya.out ≤ longest) × ((1 ≤ za.out) × (za.out ≤ longest))) }
    ensures { coverage.new ≡ own_codes order mode xa ya za }
{
    let mut xs = [Code::Computed; LONGEST];
    let mut ys = [Code::Computed; LONGEST];
    let mut zs = [Code::Computed; LONGEST];
    axis_codes(&mut xs, xa, order, mode);
    axis_codes(&mut ys, ya, order, mode);
    axis_codes(&mut zs, za, order, mode);
    cover_planes(coverage, &xs[..xa.out], &ys[..ya.out], &zs[..za.out]);
}
