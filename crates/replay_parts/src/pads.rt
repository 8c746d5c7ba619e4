// Padded volumes.
ghost use Rattle.std.specs.Prelude.{◌≡◌, ◌<◌, ◌≤◌, ℕ};
ghost use Rattle.prefilter.specs.Volume.{length_of, count_of};
ghost use Rattle.edge.specs.Edge.{padded_dims};

use crate::filters::count_of;
use answer_file::replay::Replay;
use answer_file::volumes::Lane;
use answer_file::words::Words;
use edge::pad;
use limits::wide_of;

// How many voxels the padded volume has.
fn padded_count(d: [usize; 3]) -> usize
    requires { (axis : ℕ) → axis < 3 → length_of axis d ≤ 256 }
    ensures { result ≡ count_of (padded_dims d) }
{
    wide_of(d[0]) * (wide_of(d[1]) * wide_of(d[2]))
}

// Pads a volume whose lengths are as they may be, if there is room for it.
fn pad_into(room: &mut [f64], volume: &[f64], d: [usize; 3]) {
    let Some(n) = count_of(d) else {
        return;
    };
    let wide = padded_count(d);
    if n <= volume.len() && wide <= room.len() {
        pad(&mut room[..wide], &volume[..n], d);
    }
}

// A run of voxels with the same bits; those outside the volume are 0.0.
fn expect_run(r: &mut Replay, padded: &[f64], run: Lane, bits: u64) {
    if run.length > padded.len() {
        return r.refuse();
    }
    for k in 0..run.length {
        r.expect_bits(run.voxel(padded, k), bits);
    }
}

// Runs, each a count and the bits.
fn expect_runs(r: &mut Replay, padded: &[f64], runs: usize) {
    let mut start = 0usize;
    for _ in 0..runs {
        let length = r.rest.whole(0);
        let bits = r.rest.word(1);
        let run = Lane {
            start,
            stride: 1,
            length,
        };
        expect_run(r, padded, run, bits);
        r.skip(2);
        start = start.wrapping_add(length);
    }
}

// Three lengths, where in the pool the volume starts, how many runs, and the padded volume in runs;
// an axis too long or too short leaves it all 0.0.
pub fn pad_case(r: &mut Replay, file: Words) {
    let case = r.rest;
    let d = [case.whole(0), case.whole(1), case.whole(2)];
    let mut room = [0.0; 1024];
    let Some(volume) = room.get_mut(..count_of(d).unwrap_or(0)) else {
        return r.refuse();
    };
    file.pool(case.whole(3)).put_floats(volume);
    let mut padded = [0.0; 20480];
    pad_into(&mut padded, volume, d);
    r.skip(5);
    expect_runs(r, &padded, case.whole(4));
}
