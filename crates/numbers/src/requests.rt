// The request that a caller's numbers make: C hands them on one by one, and a mode as its number.
ghost use Rattle.std.specs.Prelude.{◌≡◌, cond, Some, None};
ghost use Rattle.numbers.specs.Numbers.{is_mode, mode_of, request_of, plain_request_of};

use border::BorderMode;
use request::Request;

// Of a number alone; who wants the mode too asks mode_in.
pub fn is_mode(mode: u32) -> bool
    ensures { result ≡ is_mode mode }
{
    mode < 6
}

// Of any number, as request_of is: a file of recorded calls may hold any. Doors ask mode_in.
pub fn mode_of(mode: u32, fill: f64) -> BorderMode
    ensures { result ≡ mode_of mode fill }
{
    match mode {
        0 => BorderMode::Constant(fill),
        1 => BorderMode::Mirror,
        2 => BorderMode::Nearest,
        3 => BorderMode::Reflect,
        4 => BorderMode::Wrap,
        _ => BorderMode::Replicate,
    }
}

// The mode of a number, where it is one.
pub fn mode_in(mode: u32, fill: f64) -> Option<BorderMode>
    ensures { result ≡ cond (is_mode mode) (Some (mode_of mode fill)) None }
{
    is_mode(mode).then(|| mode_of(mode, fill))
}

// Of any numbers, and so what recorded calls ask for; doors ask request_in.
pub fn request_of(
    d0: usize,
    d1: usize,
    d2: usize,
    f0: f64,
    f1: f64,
    f2: f64,
    order: usize,
    prefilter: u32,
    mode: u32,
    fill: f64,
) -> Request
    ensures { result ≡ request_of d0 d1 d2 f0 f1 f2 order prefilter mode fill }
{
    Request {
        dims: [d0, d1, d2],
        factors: [f0, f1, f2],
        order,
        prefilter: prefilter != 0,
        mode: mode_of(mode, fill),
    }
}

// Without factors.
pub fn plain_request_of(
    d0: usize,
    d1: usize,
    d2: usize,
    order: usize,
    prefilter: u32,
    mode: u32,
    fill: f64,
) -> Request
    ensures { result ≡ plain_request_of d0 d1 d2 order prefilter mode fill }
{
    request_of(d0, d1, d2, 0.0, 0.0, 0.0, order, prefilter, mode, fill)
}

// The two requests, where the mode has a number.
pub fn request_in(
    d0: usize,
    d1: usize,
    d2: usize,
    f0: f64,
    f1: f64,
    f2: f64,
    order: usize,
    prefilter: u32,
    mode: u32,
    fill: f64,
) -> Option<Request>
    ensures { result ≡ cond (is_mode mode) (Some (request_of d0 d1 d2 f0 f1 f2 order prefilter mode fill)) None }
{
    is_mode(mode).then(|| request_of(d0, d1, d2, f0, f1, f2, order, prefilter, mode, fill))
}

pub fn plain_request_in(
    d0: usize,
    d1: usize,
    d2: usize,
    order: usize,
    prefilter: u32,
    mode: u32,
    fill: f64,
) -> Option<Request>
    ensures { result ≡ cond (is_mode mode) (Some (plain_request_of d0 d1 d2 order prefilter mode fill)) None }
{
    is_mode(mode).then(|| plain_request_of(d0, d1, d2, order, prefilter, mode, fill))
}
