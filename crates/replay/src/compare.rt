// What a call answered and left in the buffers, against the words of the call.
ghost use Rattle.std.specs.Prelude.{◌≤◌, length};

use answer_file::replay::Replay;
use answer_file::words::Words;
use coverage::counts::Counts;
use recorded::call::{BLANK, Call, NO_CODE, OUTPUT_ROOM, WORK_ROOM};
use refusal::{Refusal, number_in};
use resample::counts_in;

// The number of the answer, and of a shift or a zoom its counts.
pub fn expect_answer(call: Call, r: &mut Replay, answer: Result<Counts, Refusal>) {
    r.count(u64::from(number_in(answer)) == call.number());
    if call.entry().samples() {
        let counts = counts_in(answer);
        let recorded = call.counts();
        r.count(counts.computed == recorded.computed);
        r.count(counts.filled == recorded.filled);
        r.count(counts.defaulted == recorded.defaulted);
        r.count(counts.folded == recorded.folded);
    }
}

// Of the places lent the first `filled` hold what the pool has, and the others are still blank.
fn expect_buffer<'a>(r: &mut Replay<'a>, lent: &[f64], filled: usize, pool: Words<'a>)
    requires { filled ≤ length lent.now }
{
    r.rest = pool;
    r.expect_floats(&lent[..filled]);
    r.expect_run(&lent[filled..], BLANK.to_bits());
}

// The code at place k: the pool's, or none where nothing is written.
fn code_at(pool: Words, filled: usize, k: usize) -> u64 {
    if k < filled {
        pool.word(k)
    } else {
        u64::from(NO_CODE)
    }
}

fn expect_codes(r: &mut Replay, lent: &[u8], filled: usize, pool: Words) {
    for (k, code) in lent.iter().enumerate() {
        r.count(u64::from(*code) == code_at(pool, filled, k));
    }
}

// What it left in the buffers.
pub fn expect_left<'a>(
    call: Call<'a>,
    r: &mut Replay<'a>,
    output: &[f64; OUTPUT_ROOM],
    coverage: &[u8; OUTPUT_ROOM],
    work: &[f64; WORK_ROOM],
) {
    let values = call.output_length();
    let codes = call.coverage_length();
    let places = call.work_length();
    expect_buffer(
        r,
        &output[..values],
        call.written(values),
        call.value_words(),
    );
    expect_codes(
        r,
        &coverage[..codes],
        call.written(codes),
        call.code_words(),
    );
    expect_buffer(
        r,
        &work[..places],
        call.coefficients(places),
        call.coefficient_words(),
    );
}
