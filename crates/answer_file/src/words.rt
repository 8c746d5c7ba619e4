// The file as words: a whole number, or the bits of a float.

ghost use Rattle.std.specs.Prelude.{◌≡◌, ◌≤◌, ◌↔◌, Some, IsTrue, drop, length, slice_get, slice_index, EachIndex};
ghost use Rattle.answer_file.specs.Numbers.{float_of};

// The words from some place of the file on. Past the end there are zeros.
#[derive(Clone, Copy)]
pub struct Words<'a>(pub &'a [u64]);

impl<'a> Words<'a> {
    pub fn word(self, k: usize) -> u64
        ensures { result ≡ slice_index self.entry.0.now k }
    {
        self.0.get(k).copied().unwrap_or(0)
    }

    pub fn whole(self, k: usize) -> usize
        ensures { result ≡ slice_index self.entry.0.now k }
    {
        self.word(k) as usize
    }

    // A word that is a NaN's stands for 0.0.
    pub fn float(self, k: usize) -> f64
        ensures { result ≡ float_of (slice_index self.entry.0.now k) }
    {
        let x = std::num::f64_from_bits_with_nan(self.word(k));
        if x.is_nan() { 0.0 } else { x }
    }

    pub fn len(self) -> usize
        ensures { result ≡ length self.entry.0.now }
    {
        self.0.len()
    }

    // Whether there are n words.
    pub fn has(self, n: usize) -> bool
        ensures { IsTrue result ↔ (n ≤ length self.entry.0.now) }
    {
        n <= self.0.len()
    }

    // The words from the place k words on.
    pub fn after(self, k: usize) -> Words<'a>
        ensures { result.0.now ≡ drop k self.entry.0.now }
    {
        Words(self.0.get(k..).unwrap_or(&[]))
    }

    // Of a whole file, the words from the pool's word `start` on: the pool begins behind the first word.
    pub fn pool(self, start: usize) -> Words<'a>
        ensures { result.0.now ≡ drop start (drop 1 self.entry.0.now) }
    {
        self.after(1).after(start)
    }

    // The first numbers, as many as there are places for.
    pub fn put_floats(self, places: &mut [f64])
        ensures { EachIndex places.new (λ k. slice_get places.new k ≡ Some (float_of (slice_index self.entry.0.now k))) }
    {
        for (k, x) in places.iter_mut().enumerate() {
            *x = self.float(k);
        }
    }
}
