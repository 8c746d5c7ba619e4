// A replay: the words that are still to come, how many numbers it has compared, and how many differ.
ghost use Rattle.std.specs.Prelude.{◌≡◌, ◌+◌, ◌%◌, ◌^◌, false, drop, length, nat_eq, slice_index};
ghost use Rattle.answer_file.specs.Numbers.{has_bits};
ghost use Rattle.answer_file.specs.Replays.{Counted};

use crate::words::Words;

#[derive(Clone, Copy)]
pub struct Replay<'a> {
    pub rest: Words<'a>,
    pub compared: u64,
    pub differ: u64,
}

// Whether x has these bits. A NaN has none that count.
pub fn has_bits(x: f64, bits: u64) -> bool
    ensures { result ≡ has_bits x bits }
{
    !x.is_nan() && x.to_bits() == bits
}

impl<'a> Replay<'a> {
    pub fn new(words: Words<'a>) -> Replay<'a>
        ensures rest { result.rest.0.now ≡ words.entry.0.now }
        ensures none { (result.compared ≡ 0) × (result.differ ≡ 0) }
    {
        Replay {
            rest: words,
            compared: 0,
            differ: 0,
        }
    }

    // The counts stay far below 2^64.
    pub fn count(&mut self, same: bool)
        ensures rest { self.new.rest.0.now ≡ self.old.rest.0.now }
        ensures counts { Counted same self.old self.new }
    {
        self.compared = self.compared.wrapping_add(1);
        self.differ = self.differ.wrapping_add(u64::from(!same));
    }

    // A case that is not one of its kind counts as a difference.
    pub fn refuse(&mut self)
        ensures rest { self.new.rest.0.now ≡ self.old.rest.0.now }
        ensures counts { Counted false self.old self.new }
    {
        self.count(false);
    }

    pub fn skip(&mut self, k: usize)
        ensures rest { self.new.rest.0.now ≡ drop k self.old.rest.0.now }
        ensures counts { (self.new.compared ≡ self.old.compared) × (self.new.differ ≡ self.old.differ) }
    {
        self.rest = self.rest.after(k);
    }

    pub fn expect_bits(&mut self, x: f64, bits: u64)
        ensures rest { self.new.rest.0.now ≡ self.old.rest.0.now }
        ensures counts { Counted (has_bits x bits) self.old self.new }
    {
        self.count(has_bits(x, bits));
    }

    // Compares x with the next word.
    pub fn expect_float(&mut self, x: f64)
        ensures rest { self.new.rest.0.now ≡ drop 1 self.old.rest.0.now }
        ensures counts { Counted (has_bits x (slice_index self.old.rest.0.now 0)) self.old self.new }
    {
        self.expect_bits(x, self.rest.word(0));
        self.skip(1);
    }

    pub fn expect_whole(&mut self, n: u64)
        ensures rest { self.new.rest.0.now ≡ drop 1 self.old.rest.0.now }
        ensures counts { Counted (nat_eq (slice_index self.old.rest.0.now 0) n) self.old self.new }
    {
        self.count(self.rest.word(0) == n);
        self.skip(1);
    }

    // Compares each number with the next word.
    pub fn expect_floats(&mut self, values: &[f64])
        ensures rest { self.new.rest.0.now ≡ drop (length values.now) self.old.rest.0.now }
        ensures compared { self.new.compared ≡ (self.old.compared + length values.now) % 2 ^ 64 }
    {
        for x in values {
            self.expect_float(*x);
        }
    }

    // Compares each number with the same bits.
    pub fn expect_run(&mut self, values: &[f64], bits: u64)
        ensures compared { self.new.compared ≡ (self.old.compared + length values.now) % 2 ^ 64 }
    {
        for x in values {
            self.expect_bits(*x, bits);
        }
    }
}
