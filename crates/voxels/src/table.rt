// The table of the last axis: the neighbours and weights of every output index, and which of the
// indices are kept.
ghost use Rattle.std.specs.Prelude.{◌≡◌, ◌<◌, length};
ghost use Rattle.limits.specs.Limits.{longest};
ghost use Rattle.axis.specs.Bookkeeping.{Reaches};
ghost use Rattle.voxels.specs.Bookkeeping.{table_size, Tabled, Column};

use axis::coordinate::Axis;
use axis::point::point_at;
use border::BorderMode;
use limits::LONGEST;

// LONGEST places for each of six neighbours, and room for the last block of the last one.
pub(crate) const TABLE: usize = 6 * LONGEST + 4;

// The neighbours of every output index with their weights; those of neighbour k stand from place
// k * LONGEST on, `width` of them. Two arrays, so that four numbers or places that follow each other
// are read at once.
#[derive(Drop)]
pub struct Table {
    pub width: usize,
    pub kept: [bool; LONGEST],
    pub at: [usize; TABLE],
    pub weight: [f64; TABLE],
}

fn put_column<T: Copy>(table: &mut [T], column: &[T; 6], i: usize)
    requires { (length table.old ≡ table_size) × (i < longest) }
    ensures { (d : T) → Column d i column.now table.old table.new 6 }
{
    for (k, value) in column.iter().enumerate() {
        table[k * LONGEST + i] = *value;
    }
}

impl Table {
    // The columns of all output indices, and their flags. A table by value would be copied.
    pub(crate) fn fill(&mut self, a: Axis, order: usize, mode: BorderMode)
        requires reaches { Reaches order a }
        requires start { Tabled order mode a self.old 0 }
        ensures tabled { Tabled order mode a self.new a.out }
        ensures width { self.new.width ≡ a.out }
    {
        self.width = a.out;
        for i in 0..a.out {
            let point = point_at(a, i, order, mode);
            self.kept[i] = point.mark.is_kept();
            put_column(&mut self.at, &point.at, i);
            put_column(&mut self.weight, &point.weight, i);
        }
    }
}
