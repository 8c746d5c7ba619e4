// Every voxel of the recorded shifts and zooms asked for alone, over the coefficients that the call left in
// work, against the words of the call.
ghost use Rattle.std.specs.Prelude.{◌<◌};

use answer_file::replay::Replay;
use answer_file::words::Words;
use recorded::call::{BLANK, Call, INPUT_ROOM, NO_CODE, OUTPUT_ROOM, WORK_ROOM};
use recorded::calls::Calls;
use recorded::entry::Entry;
use refusal::{Refusal, number_in};
use request::Request;
use std::io;

// The entry for one voxel.
type Voxel = fn(Request, &[f64], &[f64], [usize; 3], &mut [f64], &mut [u8]) -> Result<(), Refusal>;

// A call that succeeded, and the entry and the buffers that its voxels are asked for with.
#[derive(Drop)]
struct Done<'a> {
    call: Call<'a>,
    voxel: Voxel,
    request: Request,
    input: &'a [f64],
    work: &'a [f64],
    ghost callable: { Voxel.IsAlwaysCallable voxel },
}

// The lengths of an output that has places on the last two axes.
#[derive(Clone, Copy)]
struct Output {
    x: usize,
    y: usize,
    z: usize,
    ghost some: { (0 < y) × (0 < z) },
}

// The answer for a voxel, and what the places of value and code hold after it: a byte, as they are lent.
#[derive(Clone, Copy)]
struct Told {
    answer: Result<(), Refusal>,
    value: f64,
    code: u8,
}

// An index on one axis, and 0 on the others.
fn along(axis: usize, n: usize) -> [usize; 3] {
    match axis {
        0 => [n, 0, 0],
        1 => [0, n, 0],
        _ => [0, 0, n],
    }
}

impl Output {
    // The index of place k, the last axis running fastest.
    fn index_of(self, k: usize) -> [usize; 3] {
        let row = k / self.z;
        [row / self.y, row % self.y, k % self.z]
    }
}

// value and code are words of the file.
fn expect_told(r: &mut Replay, told: Told, answer: Result<(), Refusal>, value: u64, code: u64) {
    r.count(number_in(told.answer) == number_in(answer));
    r.expect_bits(told.value, value);
    r.count(u64::from(told.code) == code);
}

impl<'a> Done<'a> {
    // What the call's request is told of one index.
    fn ask(&self, index: [usize; 3]) -> Told {
        let mut value = [BLANK];
        let mut code = [NO_CODE];
        let answer = (self.voxel)(
            self.request,
            self.input,
            self.work,
            index,
            &mut value,
            &mut code,
        );
        Told {
            answer,
            value: value[0],
            code: code[0],
        }
    }

    fn is_outside(&self, index: [usize; 3]) -> bool {
        matches!(self.ask(index).answer, Err(Refusal::Index))
    }

    // The output's length on an axis: the first index that lies outside.
    fn length_on(&self, axis: usize) -> usize {
        (0..OUTPUT_ROOM)
            .find(|n| self.is_outside(along(axis, *n)))
            .unwrap_or(OUTPUT_ROOM)
    }

    // The first index outside is refused, and nothing is written.
    fn expect_outside(&self, r: &mut Replay, axis: usize, length: usize) {
        let told = self.ask(along(axis, length));
        let outside = Err(Refusal::Index);
        expect_told(r, told, outside, BLANK.to_bits(), u64::from(NO_CODE));
    }

    // The place behind the output's last is the first that the lengths leave outside, and each axis
    // ends there.
    fn expect_lengths(&self, r: &mut Replay, output: Output) {
        r.count(output.index_of(self.call.output_length()) == [output.x, 0, 0]);
        self.expect_outside(r, 0, output.x);
        self.expect_outside(r, 1, output.y);
        self.expect_outside(r, 2, output.z);
    }

    fn expect_voxels(&self, r: &mut Replay, output: Output) {
        let values = self.call.value_words();
        let codes = self.call.code_words();
        for k in 0..self.call.output_length() {
            let told = self.ask(output.index_of(k));
            expect_told(r, told, Ok(()), values.word(k), codes.word(k));
        }
    }

    // Answers how many voxels were asked for.
    fn expect_output(&self, r: &mut Replay) -> usize {
        let x = self.length_on(0);
        let y = self.length_on(1);
        let z = self.length_on(2);
        if y == 0 || z == 0 {
            r.refuse();
            return 0;
        }
        let output = Output { x, y, z };
        self.expect_lengths(r, output);
        self.expect_voxels(r, output);
        self.call.output_length()
    }
}

// The voxels of a call that succeeds, and how many these are.
fn ask_call(call: Call, r: &mut Replay, voxel: Voxel) -> Option<usize>
    requires { Voxel.IsAlwaysCallable voxel }
{
    if !call.is_call() {
        return None;
    }
    let mut output = [BLANK; OUTPUT_ROOM];
    let mut coverage = [NO_CODE; OUTPUT_ROOM];
    let mut work = [BLANK; WORK_ROOM];
    call.make(&mut output, &mut coverage, &mut work).ok()?;
    let n = call.input_length();
    let places = call.work_length();
    let mut input = [0.0; INPUT_ROOM];
    call.input_words().put_floats(&mut input[..n]);
    let done = Done {
        call,
        voxel,
        request: call.request(),
        input: &input[..n],
        work: &work[..places],
    };
    Some(done.expect_output(r))
}

// Writes the line of one entry.
pub fn alone_line(rt: &impl Print, file: Words, entry: Entry, voxel: Voxel) -> io::Result<()>
    requires { Voxel.IsAlwaysCallable voxel }
{
    let mut r = Replay::new(file);
    let mut voxels = 0usize;
    for call in Calls::of(file).filter(|call| call.entry() == entry) {
        voxels = voxels.wrapping_add(ask_call(call, &mut r, voxel).unwrap_or(0));
    }
    println!(rt;
        "{entry}_voxel: {voxels} voxels one by one, compared {} differ {}",
        r.compared, r.differ
    )
}
