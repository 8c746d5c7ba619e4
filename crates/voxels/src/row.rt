// What the sums of one output row read.
ghost use Rattle.voxels.specs.Bookkeeping.{InSource, Inside};

use crate::source::Source;
use crate::table::Table;
use axis::point::Point;

// The records of axes 0 and 1 at an output row, with the table of the last axis.
#[derive(Clone, Copy)]
pub struct Row<'a> {
    pub source: Source<'a>,
    pub table: &'a Table,
    pub x: &'a Point,
    pub y: &'a Point,
    ghost in_source: { InSource source x.now y.now },
    ghost inside: { Inside table.now source.row },
}
