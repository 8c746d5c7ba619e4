// Lanes of a volume: out of the words, and against them.
ghost use Rattle.std.specs.Prelude.{◌≡◌, ◌+◌, ◌*◌, ◌<◌, ◌≤◌, ◌%◌, ◌^◌, Some, drop, length, slice_get};
ghost use Rattle.std.specs.Float.{float_zero};

use crate::replay::Replay;
use crate::words::Words;

// A lane: the place of its first voxel, the step to the next, and how many there are.
#[derive(Clone, Copy)]
pub struct Lane {
    pub start: usize,
    pub stride: usize,
    pub length: usize,
}

impl Lane {
    // The place of voxel k. One past every volume stands for those that no usize holds.
    fn place(self, k: usize) -> usize
        ensures inside { self.start + k * self.stride ≤ usize.MAX → result ≡ self.start + k * self.stride }
        ensures outside { usize.MAX < self.start + k * self.stride → result ≡ usize.MAX }
    {
        self.start.saturating_add(k.saturating_mul(self.stride))
    }

    // Voxel k, and 0.0 outside the volume.
    pub fn voxel(self, volume: &[f64], k: usize) -> f64
        ensures inside { self.start + k * self.stride < length volume.now → slice_get volume.now (self.start + k * self.stride) ≡ Some result }
        ensures outside { length volume.now ≤ self.start + k * self.stride → result ≡ float_zero }
    {
        volume.get(self.place(k)).copied().unwrap_or(0.0)
    }

    // Numbers of the file into the lane; those outside the volume are left out.
    pub fn put(self, volume: &mut [f64], words: Words) {
        for k in 0..self.length {
            if let Some(x) = volume.get_mut(self.place(k)) {
                *x = words.float(k);
            }
        }
    }

    // The lane against the words.
    pub fn expect(self, volume: &[f64], r: &mut Replay)
        ensures rest { r.new.rest.0.now ≡ drop self.length r.old.rest.0.now }
        ensures compared { r.new.compared ≡ (r.old.compared + self.length) % 2 ^ 64 }
    {
        for k in 0..self.length {
            r.expect_float(self.voxel(volume, k));
        }
    }
}
