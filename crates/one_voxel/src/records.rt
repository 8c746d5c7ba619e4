// What one voxel reads.
ghost use Rattle.std.specs.Prelude.{◌+◌};
ghost use Rattle.voxels.specs.Bookkeeping.{InSource, Planes};

use axis::point::Point;
use voxels::source::Source;

// The records of the voxel's three indices, over the source.
#[derive(Clone, Copy)]
pub struct Records<'s, 'a> {
    pub source: Source<'s>,
    pub x: &'a Point,
    pub y: &'a Point,
    pub z: &'a Point,
    ghost in_source: { InSource source x.now y.now },
    ghost places: { Planes z.now.at (source.order + 1) 1 source.row },
}
