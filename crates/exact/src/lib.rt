// Whole numbers among the floats: floor, and rounding to the nearest whole number.
#![tactic(auto)]

ghost use Rattle.std.specs.Prelude.{◌≡◌};
ghost use Rattle.exact.specs.Floor.{floor_f};
ghost use Rattle.exact.specs.Round.{round_ties_even_f};
ghost use Rattle.exact.specs.Bookkeeping.{NotBelowZero};

// The largest whole number that is at most x, as Rust's `f64::floor`: 0.5 gives 0.0 and -0.5 gives
// -1.0. A zero keeps its sign, and a NaN and the infinities are returned. Past 2^53 every float is
// whole.
pub fn floor(x: f64) -> f64
    ensures { result ≡ floor_f x }
{
    if x >= -9007199254740992.0 && x <= 9007199254740992.0 {
        let t = std::num::nearest_i64_to_f64(std::num::truncating_f64_to_i64(x));
        if t == x {
            x
        } else if x < t {
            t - 1.0
        } else {
            t
        }
    } else {
        x
    }
}

// The nearest whole number, of two equally near the even one, as Rust's `f64::round_ties_even`: 1.5
// and 2.5 give 2.0. A zero has the sign of x, so that -0.5 gives -0.0, and a NaN and the infinities
// are returned. The ported source has a helper of this name, which agrees within the range of i32.
pub fn round_ties_even(x: f64) -> f64
    ensures { result ≡ round_ties_even_f x }
{
    if x < 0.0 {
        -nearest_whole(-x)
    } else {
        nearest_whole(x)
    }
}

// The same at an x that is not below 0: of the whole numbers on either side the nearer one.
fn nearest_whole(x: f64) -> f64
    requires { NotBelowZero x }
    ensures { result ≡ round_ties_even_f x }
{
    let f = floor(x);
    let middle = f + 0.5;
    if f == x {
        x
    } else if x < middle {
        f
    } else if middle < x {
        f + 1.0
    } else {
        // the even one of f and f + 1
        floor((f + 1.0) / 2.0) * 2.0
    }
}
