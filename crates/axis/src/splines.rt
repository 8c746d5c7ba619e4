// The weights of each order.
ghost use Rattle.std.specs.Prelude.{◌≡◌, ◌≤◌};
ghost use Rattle.axis.specs.Weights.{order_on, base, quartic, quintic_outer, quintic_inner, leading1, leading2, leading3, leading4, leading5, completed, six_floats, build_splines};

use limits::is_single;

// The order that an axis is read at: a single slice has one neighbour, with the weight 1.
pub(crate) fn order_on(len: usize, order: usize) -> usize
    ensures { result ≡ order_on len order }
{
    if is_single(len) { 0 } else { order }
}

// The floor from which distances and neighbours count.
pub fn base_of(order: usize, to: f64) -> f64
    ensures { result ≡ base order to }
{
    if order % 2 == 1 {
        exact::floor(to)
    } else {
        exact::floor(to + 0.5)
    }
}

// The order + 1 weights at a coordinate, and 0.0 in the other places.
pub fn build_splines(to: f64, order: usize) -> [f64; 6]
    requires { order ≤ 5 }
    ensures { result ≡ build_splines order to }
{
    let x = to - base_of(order, to);
    match order {
        0 => [1.0, 0.0, 0.0, 0.0, 0.0, 0.0],
        1 => linear(x),
        2 => quadratic(x),
        3 => cubic(x),
        4 => fourth(x),
        _ => fifth(x),
    }
}

// A formula for each order, associated as document 01 prints it, and no one formula at five sizes.
fn linear(x: f64) -> [f64; 6]
    ensures { result ≡ six_floats (completed (leading1 x)) }
{
    let a = 1.0 - x;
    [a, 1.0 - (0.0 + a), 0.0, 0.0, 0.0, 0.0]
}

fn quadratic(x: f64) -> [f64; 6]
    ensures { result ≡ six_floats (completed (leading2 x)) }
{
    let h = 0.5 - x;
    let a = 0.5 * (h * h);
    let b = 0.75 - x * x;
    [a, b, 1.0 - (0.0 + a + b), 0.0, 0.0, 0.0]
}

fn cubic(x: f64) -> [f64; 6]
    ensures { result ≡ six_floats (completed (leading3 x)) }
{
    let z = 1.0 - x;
    let a = z * z * z / 6.0;
    let b = (x * x * (x - 2.0) * 3.0 + 4.0) / 6.0;
    let c = (z * z * (z - 2.0) * 3.0 + 4.0) / 6.0;
    [a, b, c, 1.0 - (0.0 + a + b + c), 0.0, 0.0]
}

fn quartic_piece(y: f64) -> f64
    ensures { result ≡ quartic y }
{
    y * (y * (y * (5.0 - y) / 6.0 - 1.25) + 5.0 / 24.0) + 55.0 / 96.0
}

fn fourth(x: f64) -> [f64; 6]
    ensures { result ≡ six_floats (completed (leading4 x)) }
{
    let t = x * x;
    let h = 0.5 - x;
    let h2 = h * h;
    let a = h2 * h2 / 24.0;
    let b = quartic_piece(1.0 + x);
    let c = t * (t * 0.25 - 0.625) + 115.0 / 192.0;
    let d = quartic_piece(1.0 - x);
    [a, b, c, d, 1.0 - (0.0 + a + b + c + d), 0.0]
}

fn quintic_outer(y: f64) -> f64
    ensures { result ≡ quintic_outer y }
{
    y * (y * (y * (y * (y / 24.0 - 0.375) + 1.25) - 1.75) + 0.625) + 0.425
}

fn quintic_inner(x: f64) -> f64
    ensures { result ≡ quintic_inner x }
{
    let t = x * x;
    t * (t * (0.25 - x / 12.0) - 0.5) + 0.55
}

fn fifth(x: f64) -> [f64; 6]
    ensures { result ≡ six_floats (completed (leading5 x)) }
{
    let y = 1.0 - x;
    let t = y * y;
    let a = y * t * t / 120.0;
    let b = quintic_outer(x + 1.0);
    let c = quintic_inner(x);
    let d = quintic_inner(y);
    let e = quintic_outer(y + 1.0);
    [a, b, c, d, e, 1.0 - (0.0 + a + b + c + d + e)]
}
