// The voxels or coefficients that sums read.
ghost use Rattle.std.specs.Prelude.{◌≡◌, ◌+◌, ◌*◌, ◌^◌, ◌<◌, ◌≤◌, length, take, drop};

// Planes of `plane` places with rows of `row`, read at an order.
#[derive(Clone, Copy)]
pub struct Source<'a> {
    pub numbers: &'a [f64],
    pub plane: usize,
    pub row: usize,
    pub order: usize,
    ghost order_bound: { order ≤ 5 },
}

impl<'a> Source<'a> {
    pub fn plane_at(&self, i: usize) -> &'a [f64]
        requires { (0 < self.now.plane) × ((i + 1) * self.now.plane ≤ length self.now.numbers.now) }
        ensures places { result.now ≡ take self.now.plane (drop (i * self.now.plane) self.now.numbers.now) }
        ensures len { length result.now ≡ self.now.plane }
    {
        &self.numbers[i * self.plane..(i + 1) * self.plane]
    }

    // Where row i of a plane begins.
    pub fn row_at(&self, i: usize) -> usize
        requires { (i + 1) * self.now.row ≤ self.now.plane }
        ensures start { result ≡ i * self.now.row }
        ensures fits { result + self.now.row < 2 ^ 64 }
    {
        i * self.row
    }
}
