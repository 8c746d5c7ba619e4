// The poles of each order, the gain of the filter, and powers of a pole.
#![tactic(auto)]

ghost use Rattle.std.specs.Prelude.{◌≡◌, ◌≤◌};
ghost use Rattle.poles.specs.Poles.{poles_of, gain_of};
ghost use Rattle.poles.specs.Power.{power};

// A pole, and how many numbers of a lane its mirror start reads where the lane is longer.
#[derive(Clone, Copy)]
pub struct Pole {
    pub z: f64,
    pub cutoff: usize,
}

// The definitions have poles of a number that is an order, 2 to 5.
pub fn get_filter_poles(order: usize) -> &'static [Pole]
    requires { (2 ≤ order) × (order ≤ 5) }
    ensures { result.now ≡ poles_of order }
{
    match order {
        2 => &[Pole {
            z: -0.1715728752538097,
            cutoff: 19,
        }],
        3 => &[Pole {
            z: -0.2679491924311228,
            cutoff: 25,
        }],
        4 => &[
            Pole {
                z: -0.3613412259002118,
                cutoff: 33,
            },
            Pole {
                z: -0.013725429297341663,
                cutoff: 7,
            },
        ],
        _ => &[
            Pole {
                z: -0.43057534709997825,
                cutoff: 40,
            },
            Pole {
                z: -0.04309628820326328,
                cutoff: 10,
            },
        ],
    }
}

// The gain of an order's poles, stored, so that no call divides for it.
pub fn filter_gain(order: usize) -> f64
    requires { (2 ≤ order) × (order ≤ 5) }
    ensures { result ≡ gain_of (poles_of order) }
{
    match order {
        2 => 8.000000000000007,
        3 => 5.999999999999998,
        4 => 383.999999999935,
        _ => 120.00000000000301,
    }
}

// x to the power n, by repeated squaring from the low bit.
pub fn powi(x: f64, n: usize) -> f64
    ensures { result ≡ power x n }
{
    let mut r = 1.0;
    let mut a = x;
    let mut b = n;
    // halved from turn to turn, and no index
    while b > 0 {
        if b % 2 == 1 {
            r = r * a;
        }
        a = a * a;
        b = b / 2;
    }
    r
}
