// Filtered lanes and volumes.
ghost use Rattle.std.specs.Prelude.{◌≡◌, ◌<◌, ◌≤◌, true, IfSome};
ghost use Rattle.replay_parts.specs.Bookkeeping.{Counted};

use crate::modes::each_of;
use answer_file::replay::Replay;
use answer_file::volumes::Lane;
use answer_file::words::Words;
use border::BorderMode;
use prefilter::{filter_axis, filter_volume};

// The lengths that axes have here.
fn is_short(n: usize) -> bool
    ensures { result ≡ true → (2 ≤ n) × (n ≤ 256) }
{
    2 <= n && n <= 256
}

// How many voxels there are, unless an axis is too long or too short.
pub fn count_of(d: [usize; 3]) -> Option<usize>
    ensures { IfSome result (λ n. Counted d n) }
{
    if is_short(d[0]) && is_short(d[1]) && is_short(d[2]) {
        Some(d[0] * (d[1] * d[2]))
    } else {
        None
    }
}

// Filters along an axis, or along all three where `axis` is above 2 (the file has 3), if that is asked for
// as it may be.
fn filter(volume: &mut [f64], d: [usize; 3], axis: usize, order: usize, mode: BorderMode) {
    let Some(n) = count_of(d) else {
        return;
    };
    if n > volume.len() || order < 2 || order > 5 {
        return;
    }
    if axis <= 2 {
        filter_axis(&mut volume[..n], d, axis, order, mode);
    } else {
        filter_volume(&mut volume[..n], d, order, mode);
    }
}

// The four lanes along an axis of a volume that is n long there, and 2 on the other axes.
fn lanes_of(along: usize, n: usize) -> [Lane; 4]
    requires { n ≤ 256 }
{
    let (starts, stride) = match along {
        0 => ([0, 1, 2, 3], 4),
        1 => ([0, 1, 2 * n, 2 * n + 1], 2),
        _ => ([0, n, 2 * n, 3 * n], 1),
    };
    starts.map(|start| Lane {
        start,
        stride,
        length: n,
    })
}

// Two lanes of numbers fill the four by turns. The last lane's answers are the case's last words.
fn lanes_along<'a>(r: &mut Replay<'a>, file: Words, case: Words<'a>, along: usize, mode: BorderMode)
    requires { along ≤ 2 }
{
    let n = case.whole(0);
    if !is_short(n) {
        return r.refuse();
    }
    let lanes = lanes_of(along, n);
    let numbers = [file.pool(case.whole(3)), file.pool(case.whole(4))];
    let answers = [case.after(5), case.after(5 + n)];
    let mut volume = [0.0; 1024];
    for (k, lane) in lanes.iter().enumerate() {
        lane.put(&mut volume, numbers[k % 2]);
    }
    let mut d = [2; 3];
    d[along] = n;
    filter(&mut volume, d, along, case.whole(1), mode);
    for (k, lane) in lanes.iter().enumerate() {
        r.rest = answers[k % 2];
        lane.expect(&volume, r);
    }
}

// A length, an order, a set of modes, where in the pool two lanes start, and both lanes filtered:
// replayed in each of the modes along each axis.
pub fn lane_case(r: &mut Replay, file: Words) {
    let case = r.rest;
    each_of(case.whole(2), |mode| {
        for along in 0..3 {
            lanes_along(r, file, case, along, mode);
        }
    });
}

// A volume with an axis too long or too short has no voxel that is compared.
fn volume_in_mode<'a>(r: &mut Replay<'a>, file: Words, case: Words<'a>, mode: BorderMode) {
    let d = [case.whole(0), case.whole(1), case.whole(2)];
    let n = count_of(d).unwrap_or(0);
    let mut room = [0.0; 1024];
    let Some(volume) = room.get_mut(..n) else {
        return r.refuse();
    };
    file.pool(case.whole(6)).put_floats(volume);
    filter(volume, d, case.whole(5), case.whole(3), mode);
    r.rest = case.after(7);
    r.expect_floats(volume);
}

// Three lengths, an order, a set of modes, an axis or 3 for all, where in the pool the volume
// starts, and the volume filtered.
pub fn volume_case(r: &mut Replay, file: Words) {
    let case = r.rest;
    each_of(case.whole(4), |mode| volume_in_mode(r, file, case, mode));
}
