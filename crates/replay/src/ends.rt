// How many answers have each number.
use coverage::counts::Counts;
use refusal::{Refusal, number_in};
use std::fmt;

// Those of 0 to 9, and behind them those of 12.
#[derive(Drop)]
pub struct Ends([u64; 11]);

fn place_of(answer: Result<Counts, Refusal>) -> usize {
    match number_in(answer) {
        12 => 10,
        n => n as usize,
    }
}

impl Ends {
    pub fn new() -> Ends {
        Ends([0; 11])
    }

    // One answer more.
    pub fn count(&mut self, answer: Result<Counts, Refusal>) {
        if let Some(n) = self.0.get_mut(place_of(answer)) {
            *n = n.wrapping_add(1);
        }
    }
}

impl fmt::Display for Ends {
    fn fmt<W: fmt::Write>(&self, f: &mut fmt::Formatter<W>) -> fmt::Result {
        for n in &self.0 {
            write!(f, " {n}")?;
        }
        Ok(())
    }
}
