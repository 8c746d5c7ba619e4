// What is printed of a line. Each number of a list has a space before it.
use coverage::counts::Counts;
use refusal::{Refusal, number_of};
use std::fmt;
use std::num::f64_to_bits_with_nan;

// A whole number as such; any other, and -0.0, by its bits.
#[derive(Clone, Copy)]
struct Number(f64);

impl fmt::Display for Number {
    fn fmt<W: fmt::Write>(&self, f: &mut fmt::Formatter<W>) -> fmt::Result {
        let Number(x) = *self;
        let bits = f64_to_bits_with_nan(x);
        if x.fract() == 0.0 && bits != f64_to_bits_with_nan(-0.0) {
            write!(f, "{x}")
        } else {
            write!(f, "0x{bits:016x}")
        }
    }
}

#[derive(Clone, Copy)]
pub struct Numbers<'a>(pub &'a [f64]);

impl fmt::Display for Numbers<'_> {
    fn fmt<W: fmt::Write>(&self, f: &mut fmt::Formatter<W>) -> fmt::Result {
        for x in self.0 {
            write!(f, " {}", Number(*x))?;
        }
        Ok(())
    }
}

#[derive(Clone, Copy)]
pub struct Codes<'a>(pub &'a [u8]);

impl fmt::Display for Codes<'_> {
    fn fmt<W: fmt::Write>(&self, f: &mut fmt::Formatter<W>) -> fmt::Result {
        for code in self.0 {
            write!(f, " {code}")?;
        }
        Ok(())
    }
}

#[derive(Clone, Copy)]
pub struct Tally(pub Counts);

impl fmt::Display for Tally {
    fn fmt<W: fmt::Write>(&self, f: &mut fmt::Formatter<W>) -> fmt::Result {
        let Tally(n) = self;
        write!(
            f,
            " {} {} {} {}",
            n.computed, n.filled, n.defaulted, n.folded
        )
    }
}

// A refusal's number, and whether every buffer is as it was before the call.
#[derive(Clone, Copy)]
pub struct Refused {
    pub why: Refusal,
    pub untouched: bool,
}

impl fmt::Display for Refused {
    fn fmt<W: fmt::Write>(&self, f: &mut fmt::Formatter<W>) -> fmt::Result {
        let left = if self.untouched {
            "nothing written"
        } else {
            "BUFFERS WRITTEN"
        };
        write!(f, " refusal {}, {left}", number_of(self.why))
    }
}
