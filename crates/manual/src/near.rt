// How near our values come to SciPy's.
use answer_file::replay::Replay;
use answer_file::words::Words;
use recorded::call::{BLANK, Call, NO_CODE, OUTPUT_ROOM, WORK_ROOM};

// Of the largest input voxel of the call.
const TOLERANCE: f64 = 0.000000001;

// The size of the largest of the first n voxels.
fn largest(voxels: Words, n: usize) -> f64 {
    (0..n)
        .map(|k| voxels.float(k).abs())
        .fold(0.0, |most: f64, x| most.max(x))
}

// Holds each value to SciPy's, and answers the widest gap, as a multiple of the largest input voxel. A
// NaN is outside.
fn hold_values(r: &mut Replay, values: &[f64], scipy: Words, largest: f64) -> f64 {
    let mut widest = 0.0f64;
    for (k, x) in values.iter().enumerate() {
        let gap = (*x - scipy.float(k)).abs();
        r.count(gap <= TOLERANCE * largest);
        widest = widest.max(gap / largest);
    }
    widest
}

// A refusal counts as a number outside, and so do words that are no call.
pub fn hold_call(call: Call, r: &mut Replay) -> f64 {
    if call.is_call() {
        let mut output = [BLANK; OUTPUT_ROOM];
        let mut coverage = [NO_CODE; OUTPUT_ROOM];
        let mut work = [BLANK; WORK_ROOM];
        if call.make(&mut output, &mut coverage, &mut work).is_ok() {
            let n = call.output_length();
            let most = largest(call.input_words(), call.input_length());
            return hold_values(r, &output[..n], call.value_words(), most);
        }
    }
    r.refuse();
    0.0
}
