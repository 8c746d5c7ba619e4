// The values of a volume, row by row. The last axis stands in a table; a record of axis 0 is made for
// each plane, one of axis 1 for each row.
ghost use Rattle.std.specs.Prelude.{◌≡◌, false, cond, ℕ, ◌+◌, ◌*◌, ◌<◌, ◌≤◌, length, get_or};
ghost use Rattle.std.specs.Float.{nan};
ghost use Rattle.limits.specs.Limits.{longest, longest_padded};
ghost use Rattle.lists.specs.Tabulate.{tabulate};
ghost use Rattle.axis.specs.Bookkeeping.{Reaches};
ghost use Rattle.voxels.specs.Voxel.{tap_of, values};
ghost use Rattle.voxels.specs.Bookkeeping.{column, Planes, Inside, computed_of, sum_of, with_voxel, with_four, row_value, plane_value, volume_value};

use crate::row::Row;
use crate::source::Source;
use crate::sum::{Four, sum_four};
use crate::table::{TABLE, Table};
use axis::coordinate::Axis;
use axis::point::{Point, point_at};
use border::BorderMode;
use coverage::cover::drop_value;
use limits::LONGEST;

// Both are worked out, then one is taken: no branch in the loops.
fn chosen(kept: bool, value: f64, dropped: f64) -> f64
    ensures { result ≡ cond kept value dropped }
{
    if kept { value } else { dropped }
}

// Order 0: the voxels of one row of a plane, the row that begins at `start`.
fn copy_row(out: &mut [f64], table: &Table, plane: &[f64], start: usize, dropped: f64)
    requires out_len { length out.old ≤ longest }
    requires by_index { (k : ℕ) → k < longest → start + get_or table.now.at k 0 < length plane.now }
    ensures { out.new ≡ tabulate (length out.old) (λ k. cond (get_or table.now.kept k false) (get_or plane.now (start + get_or table.now.at k 0) nan) dropped) }
{
    for (k, value) in out.iter_mut().enumerate() {
        *value = chosen(table.kept[k], plane[start + table.at[k]], dropped);
    }
}

// Voxel k of the row, if there is one.
fn put(out: &mut [f64], kept: &[bool], k: usize, value: f64, dropped: f64)
    requires { length out.old ≤ length kept.now }
    ensures { out.new ≡ with_voxel kept.now dropped out.old k value }
{
    if k < out.len() {
        out[k] = chosen(kept[k], value, dropped);
    }
}

// Voxels o to o + 3, those that there are.
fn put_four(out: &mut [f64], kept: &[bool], o: usize, t: Four<f64>, dropped: f64)
    requires { (length out.old ≤ length kept.now) × (o < longest) }
    ensures { out.new ≡ with_four kept.now dropped out.old o t }
{
    put(out, kept, o, t.a, dropped);
    put(out, kept, o + 1, t.b, dropped);
    put(out, kept, o + 2, t.c, dropped);
    put(out, kept, o + 3, t.d, dropped);
}

// Orders above 0, in blocks of four voxels.
fn sum_row(out: &mut [f64], row: &Row, dropped: f64)
    requires { length out.old ≤ longest }
    ensures { out.new ≡ tabulate (length out.old) (λ k. cond (get_or row.now.table.now.kept k false) (sum_of row.now.source (tap_of row.now.x.now) (tap_of row.now.y.now) (column row.now.table.now k)) dropped) }
{
    for o in (0..out.len()).step_by(4) {
        put_four(out, &row.table.kept, o, sum_four(row, o), dropped);
    }
}

// A row that axes 0 and 1 keep.
fn kept_row(out: &mut [f64], row: &Row, dropped: f64)
    requires { length out.old ≤ longest }
    ensures { out.new ≡ tabulate (length out.old) (λ k. cond (get_or row.now.table.now.kept k false) (computed_of row.now.source (tap_of row.now.x.now) (tap_of row.now.y.now) (column row.now.table.now k)) dropped) }
{
    let source = &row.source;
    if source.order == 0 {
        let plane = source.plane_at(row.x.at[0]);
        let start = source.row_at(row.y.at[0]);
        copy_row(out, row.table, plane, start, dropped);
    } else {
        sum_row(out, row, dropped);
    }
}

// A row that axes 0 and 1 keep, or not.
fn value_row(out: &mut [f64], row: &Row, mode: BorderMode)
    requires { (length out.old ≡ row.now.table.now.width) × (row.now.table.now.width ≤ longest) }
    ensures { out.new ≡ tabulate row.now.table.now.width (row_value mode row.now.source row.now.table.now row.now.x.now row.now.y.now) }
{
    let dropped = drop_value(mode);
    if row.x.mark.is_kept() && row.y.mark.is_kept() {
        kept_row(out, row, dropped);
    } else {
        out.fill(dropped);
    }
}

// A plane at an index of axis 0.
fn value_plane(
    out: &mut [f64],
    source: &Source,
    table: &Table,
    mode: BorderMode,
    x: &Point,
    ya: Axis,
)
    requires out_len { (length out.old ≡ ya.out * table.now.width) × (table.now.width ≤ longest) }
    requires planes { Planes x.now.at (source.now.order + 1) source.now.plane (length source.now.numbers.now) }
    requires plane_value { source.now.plane ≡ ya.len * source.now.row }
    requires inside { Inside table.now source.now.row }
    requires reaches { Reaches source.now.order ya }
    ensures { out.new ≡ tabulate (ya.out * table.now.width) (plane_value mode source.now table.now x.now ya) }
{
    let source = *source; // so that its order is known not to change over the rows
    let width = table.width;
    for j in 0..ya.out {
        let y = point_at(ya, j, source.order, mode);
        let row = Row {
            source,
            table,
            x,
            y: &y,
        };
        value_row(&mut out[j * width..(j + 1) * width], &row, mode);
    }
}

// The planes.
fn value_planes(
    out: &mut [f64],
    source: &Source,
    table: &Table,
    mode: BorderMode,
    xa: Axis,
    ya: Axis,
)
    requires out_len { (length out.old ≡ xa.out * (ya.out * table.now.width)) × (table.now.width ≤ longest) }
    requires data_len { length source.now.numbers.now ≡ xa.len * source.now.plane }
    requires plane_value { source.now.plane ≡ ya.len * source.now.row }
    requires inside { Inside table.now source.now.row }
    requires reaches { Reaches source.now.order xa × Reaches source.now.order ya }
    ensures { out.new ≡ tabulate (xa.out * (ya.out * table.now.width)) (volume_value mode source.now table.now xa ya) }
{
    let size = ya.out * table.width;
    for i in 0..xa.out {
        let x = point_at(xa, i, source.order, mode);
        value_plane(
            &mut out[i * size..(i + 1) * size],
            source,
            table,
            mode,
            &x,
            ya,
        );
    }
}

// The whole volume. The axes stand one by one, as in the definition values.
pub fn sweep(
    out: &mut [f64],
    data: &[f64],
    xa: Axis,
    ya: Axis,
    za: Axis,
    order: usize,
    mode: BorderMode,
)
    requires order_bound { order ≤ 5 }
    requires out_len { length out.old ≡ xa.out * (ya.out * za.out) }
    requires data_len { length «data».now ≡ xa.len * (ya.len * za.len) }
    requires len_le_longest_padded { (ya.len ≤ longest_padded) × ((za.len ≤ longest_padded) × (1 ≤ za.out)) }
    requires reaches { Reaches order xa × (Reaches order ya × Reaches order za) }
    ensures { out.new ≡ values order mode xa ya za «data».now }
{
    let mut table = Table {
        width: 0,
        kept: [false; LONGEST],
        at: [0; TABLE],
        weight: [0.0; TABLE],
    };
    table.fill(za, order, mode);
    let source = Source {
        numbers: data,
        plane: ya.len * za.len,
        row: za.len,
        order,
    };
    value_planes(out, &source, &table, mode, xa, ya);
}
